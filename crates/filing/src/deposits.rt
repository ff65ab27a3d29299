ghost use Rattle.std.specs.Prelude.{◌≡◌};
ghost use Rattle.filing.specs.Entries.{with_deposit, deposits_behind, totals_of};

use field::Currency;
use record::{Class, Core, Deposit, End};
use trailer::Totals;

// The deposits of an entry, by currency, in öre and in cents.
#[derive(Clone, Copy, Debug, PartialEq, Eq)]
pub struct Deposits {
    pub sek: u64,
    pub eur: u64,
}

impl Deposits {
    fn add(&mut self, d: Deposit)
        ensures { self.new ≡ with_deposit self.old d }
    {
        match d.currency {
            Currency::Sek => self.sek = self.sek.saturating_add(d.sum),
            Currency::Eur => self.eur = self.eur.saturating_add(d.sum),
        }
    }

    // One record more: only a deposit adds anything.
    pub fn take(&mut self, class: Class)
        ensures { self.new ≡ deposits_behind self.old class }
    {
        if let Class::Core(_, Ok(Core::Deposit(d))) = class {
            self.add(d);
        }
    }

    // What an entry with these deposits comes to, by the counts of its end record.
    pub fn totals(self, counts: End) -> Totals
        ensures { result ≡ totals_of counts self }
    {
        Totals {
            payments: counts.payments,
            deductions: counts.deductions,
            sek: self.sek,
            eur: self.eur,
        }
    }
}
