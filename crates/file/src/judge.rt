ghost use Rattle.std.specs.Prelude.{◌≡◌, ℕ, ◌&&◌, List, []};
ghost use Rattle.manual.specs.Judging.{Mode, may_follow, paid_for, deposit_agrees, like_item, content, moved, first, tests, after, step as step_term, opened, begin};
ghost use Rattle.record.specs.declared.fields.Core.TheVariants.{Payment, Deduction, Deposit as deposit_of};
ghost use Rattle.file.specs.Judges.{section_held, held_by, state_of, outcome, headed_judge, taken_in};

use crate::order::{begun, follows, place_behind};
use crate::payers::Payers;
use field::Currency;
use manual::{Cause, Place, level_at, rider_fault};
use record::{Class, Core, Deposit, End, Kind, RecordFault, Transfer, fields_read};
use sums::Row;

// What is known of the open section, its payers aside.
#[derive(Clone, Copy, Debug, PartialEq, Eq)]
pub struct Section {
    pub currency: Currency,
    // payments and deductions
    pub records: u64,
    pub payments: u64,
    // what the payments come to, and the deductions
    pub plus: u64,
    pub minus: u64,
}

impl Section {
    // Behind its opening record.
    fn opened(currency: Currency) -> Section
        ensures { section_held result [] ≡ opened currency }
    {
        Section {
            currency,
            records: 0,
            payments: 0,
            plus: 0,
            minus: 0,
        }
    }
}

// What is known of the open item.
#[derive(Clone, Copy, Debug, PartialEq, Eq)]
pub struct Item {
    pub payer: u64,
    pub serial: u64,
    // information records
    pub infos: u64,
}

// What is known of a file behind its last record.
#[derive(Clone, Copy, Drop)]
pub struct Judge<P> {
    pub place: Place,
    pub counts: End,
    pub section: Section,
    pub item: Item,
    // those of the open section
    pub payers: P,
}

impl<P: Payers> Judge<P> {
    // Before the first record, with this way to know payers.
    pub fn new(payers: P) -> Judge<P>
        ensures state { held_by result [] ≡ begin }
        ensures payers { result.payers ≡ payers }
    {
        Judge {
            place: Place::Fresh,
            counts: End {
                payments: 0,
                deductions: 0,
                extras: 0,
                deposits: 0,
            },
            section: Section::opened(Currency::Sek),
            item: Item {
                payer: 0,
                serial: 0,
                infos: 0,
            },
            payers,
        }
    }

    // Whether a core record of this kind comes in order; a deposit also wants a payment in its section.
    fn in_order(&self, kind: Kind) -> bool
        ensures { result ≡ (may_follow self.now.place kind && paid_for self.now.section.payments kind) }
    {
        follows(self.place, kind) && (kind != Kind::Deposit || self.section.payments > 0)
    }

    // A payment or deduction that has found its payer's row begins an item.
    fn head(&mut self, t: Transfer)
        ensures { self.new ≡ headed_judge self.old t }
    {
        self.section.records = self.section.records.saturating_add(1);
        self.item = Item {
            payer: t.payer,
            serial: t.serial,
            infos: 0,
        };
    }

    fn pay(&mut self, t: Transfer) -> Result<(), Cause>
        ensures same { P.same self.old.payers self.new.payers }
        ensures state { outcome result (state_of P.held self.new) ≡ taken_in (P.mode self.old.payers) (state_of P.held self.old) (Payment t) }
    {
        self.payers.enter(Row {
            key: t.payer,
            added: t.amount,
            taken: 0,
        })?;
        self.head(t);
        self.section.payments = self.section.payments.saturating_add(1);
        self.section.plus = self.section.plus.saturating_add(t.amount);
        self.counts.payments = self.counts.payments.saturating_add(1);
        Ok(())
    }

    // Not one function with `pay`: but for the head, what it adds to is another column and another count.
    fn deduct(&mut self, t: Transfer) -> Result<(), Cause>
        ensures same { P.same self.old.payers self.new.payers }
        ensures state { outcome result (state_of P.held self.new) ≡ taken_in (P.mode self.old.payers) (state_of P.held self.old) (Deduction t) }
    {
        self.payers.enter(Row {
            key: t.payer,
            added: 0,
            taken: t.amount,
        })?;
        self.head(t);
        self.section.minus = self.section.minus.saturating_add(t.amount);
        self.counts.deductions = self.counts.deductions.saturating_add(1);
        Ok(())
    }

    fn agrees(&self, d: Deposit) -> bool
        ensures { result ≡ deposit_agrees (held_by self.now []).section d }
    {
        let section = self.section;
        d.currency == section.currency
            && d.count == section.records
            && d.sum.saturating_add(section.minus) == section.plus
    }

    fn settle(&mut self, d: Deposit) -> Result<(), Cause>
        ensures same { P.same self.old.payers self.new.payers }
        ensures state { outcome result (state_of P.held self.new) ≡ taken_in (P.mode self.old.payers) (state_of P.held self.old) (deposit_of d) }
    {
        if !self.payers.none_owes() {
            return Err(Cause::PayerOwes);
        }
        if !self.agrees(d) {
            return Err(Cause::Deposit);
        }
        self.counts.deposits = self.counts.deposits.saturating_add(1);
        Ok(())
    }

    // Whether an extra reference has the payer and serial of its item.
    fn is_like(&self, t: Transfer) -> bool
        ensures { result ≡ like_item (held_by self.now []).item t }
    {
        t.payer == self.item.payer && t.serial == self.item.serial
    }

    // The fields of a core record that came in order.
    fn take_fields(&mut self, core: Core) -> Result<(), Cause>
        ensures same { P.same self.old.payers self.new.payers }
        ensures state { outcome result (state_of P.held self.new) ≡ taken_in (P.mode self.old.payers) (state_of P.held self.old) core }
    {
        match core {
            Core::Opening(o) => {
                self.section = Section::opened(o.currency);
                self.payers.clear();
                Ok(())
            }
            Core::Payment(t) => self.pay(t),
            Core::Deduction(t) => self.deduct(t),
            Core::ExtraReference(t) | Core::NegativeReference(t) => {
                if !self.is_like(t) {
                    return Err(Cause::UnlikeItem);
                }
                self.counts.extras = self.counts.extras.saturating_add(1);
                Ok(())
            }
            Core::Information => {
                if self.item.infos >= 99 {
                    return Err(Cause::Information);
                }
                self.item.infos = self.item.infos.saturating_add(1);
                Ok(())
            }
            Core::Deposit(d) => self.settle(d),
            Core::End(e) => {
                if e == self.counts {
                    Ok(())
                } else {
                    Err(Cause::Counts)
                }
            }
            Core::Start(_)
            | Core::Name
            | Core::AddressOne
            | Core::AddressTwo
            | Core::CompanyNumber(_) => Ok(()),
        }
    }

    // One record more: what is wrong with it, or the state behind it.
    pub fn step(&mut self, class: Class) -> Result<(), Cause>
        ensures same { P.same self.old.payers self.new.payers }
        ensures state { outcome result (state_of P.held self.new) ≡ step_term (P.mode self.old.payers) (state_of P.held self.old) class }
    {
        match class {
            Class::BadCode => Err(Cause::Unreadable(RecordFault::Code)),
            Class::Core(kind, read) => {
                if !self.in_order(kind) {
                    return Err(Cause::Order);
                }
                let core = fields_read(read)?;
                self.place = place_behind(kind);
                self.take_fields(core)
            }
            Class::Rider(rider) => {
                if !begun(self.place) {
                    return Err(Cause::Order);
                }
                match rider_fault(level_at(self.place), rider) {
                    Some(cause) => Err(cause),
                    None => Ok(()),
                }
            }
            Class::Unknown => {
                if !begun(self.place) {
                    return Err(Cause::Order);
                }
                Ok(())
            }
        }
    }
}
