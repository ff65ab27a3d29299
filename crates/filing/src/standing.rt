// Whether files can still be taken in.
#[derive(Clone, Copy, Debug, PartialEq, Eq)]
pub enum Standing {
    Open,
    Closed,
}

// What opening a shelf finds on it.
#[derive(Clone, Copy, Debug, PartialEq, Eq)]
pub struct Opened {
    pub entries: usize,
    // how many records the entries take with their trailers, and so the shelf number of the last trailer
    pub last: usize,
    pub standing: Standing,
}
