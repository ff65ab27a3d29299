// What a file has to be: definitions and laws for the code that checks it, and the faults that it can have.
#![tactic(auto)]

ghost use Rattle.manual.specs.Laws.{CheckLaws};

mod faults;
mod places;
mod riders;

pub use faults::{Cause, FileFault};
pub use places::{Place, Stage};
pub use riders::{level_after, level_at, rider_fault};

// What holds of checking any file, proved once; there is nothing to run.
#[tactic(auto, using(crate::proofs::CheckLaws::laws))]
pub fn check_laws()
    ensures { CheckLaws }
{}
