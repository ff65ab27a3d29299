// What stands on a shelf: entries with their trailers, what opening finds, and why a volume
// refuses.
#![tactic(auto)]

mod deposits;
mod faults;
mod laws;
mod standing;

pub use deposits::Deposits;
pub use faults::VolumeFault;
pub use laws::filing_laws;
pub use standing::{Opened, Standing};
