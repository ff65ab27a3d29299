// The payers of the open section, where they are judged and where they are not.
ghost use Rattle.std.specs.Prelude.{◌≡◌, ℕ, List, [], is_ok, IfErr, OnOk, length, take, refl};
ghost use Rattle.std.proofs.Common.{ap, ◌∙◌};
ghost use Rattle.sums.specs.declared.Row.{Row as row_of};
ghost use Rattle.manual.specs.declared.faults.Cause.TheVariants.{NoPlace};
ghost use Rattle.manual.specs.Judging.{Mode, room, payers_after, none_owes as none_owes_term};
ghost use Rattle.manual.specs.Laws.{judging, not_judging};
ghost use Rattle.file.specs.Payers.{PayerLaws};

use manual::Cause;
use sums::{Row, Table, covered};

// How a judge knows payers: what each paid and deducted in the open section.
pub trait Payers: Drop {
    // whether they are judged, and in how many rows
    ghost mode: { Self → Mode };

    // a row for each payer
    ghost held: { Self → List (row_of ℕ) };

    // That two states judge alike and borrow from the same lender: by it a caller knows what its rows hold afterwards.
    ghost same: { Self → Self → Type 0 };

    ghost laws: { PayerLaws mode same };

    // Puts an amount to its payer's row.
    fn enter(&mut self, entry: Row<u64>) -> Result<(), Cause>
        ensures same { same self.old self.new }
        ensures room { is_ok result ≡ room (mode self.old) (held self.old) entry.key entry.added entry.taken }
        ensures cause { IfErr result (λ e. e ≡ NoPlace) }
        ensures rows { OnOk result (held self.new ≡ payers_after (mode self.old) (held self.old) entry.key entry.added entry.taken) };

    // Whether no payer's deductions exceed its payments, where they are judged.
    fn none_owes(&self) -> bool
        ensures { result ≡ none_owes_term (mode self.now) (held self.now) };

    // Forgets the payers, since a new section begins.
    fn clear(&mut self)
        ensures same { same self.old self.new }
        ensures rows { held self.new ≡ [] };
}

// Payers are not judged.
#[derive(Clone, Copy, Debug, PartialEq, Eq)]
pub struct NotJudged;

impl Payers for NotJudged {
    ghost mode = { λ _. not_judging };

    ghost held = { λ _. [] };

    ghost same = { λ _ _. Unit {0} };

    ghost laws = { record { same_refl = λ _. tt; same_trans = λ _ _ _ _ _. tt; same_mode = λ _ _ _. refl } };

    fn enter(&mut self, _entry: Row<u64>) -> Result<(), Cause> {
        Ok(())
    }

    fn none_owes(&self) -> bool {
        true
    }

    fn clear(&mut self) {}
}

// Payers are judged in a table.
impl Payers for Table<'_, u64> {
    ghost mode = { λ t. judging (length t.rows.now) };

    ghost held = { λ t. take t.used t.rows.now };

    ghost same = { λ s t. (t.rows.ghost_name ≡ s.rows.ghost_name) × (length t.rows.now ≡ length s.rows.now) };

    ghost laws = { record { same_refl = λ _. (refl, refl); same_trans = λ _ _ _ g h. (h.0 ∙ g.0, h.1 ∙ g.1); same_mode = λ _ _ h. ap judging h.1 } };

    fn enter(&mut self, entry: Row<u64>) -> Result<(), Cause> {
        Ok(Table::enter(self, entry)?)
    }

    fn none_owes(&self) -> bool {
        covered(self.rows())
    }

    fn clear(&mut self) {
        Table::clear(self)
    }
}
