// The calls of a volume on a shelf: opening, taking in, closing, fetching.
#![tactic(auto)]

mod closing;
mod examples;
mod fetching;
mod opening;
mod taking;
mod tokens;

pub use closing::{close, open_again};
pub use fetching::{fetch, find_trailer, is_among};
pub use opening::open;
pub use taking::take_in;
pub use tokens::{ClosedVolume, OpenVolume, Volume};
