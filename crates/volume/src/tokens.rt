// An open volume: files can be taken in, and it can be closed. It is moved, never copied, and only the calls of this
// crate make one. It and the closed one are two types, though alike, so that each call takes just the one that it may: a rule
// of the project.
#[derive(Debug, PartialEq, Eq, Drop)]
pub struct OpenVolume {
    pub(crate) entries: usize,
    // how many records the entries take with their trailers, and so the shelf number of the last trailer
    pub(crate) last: usize,
}

// A closed volume: nothing more is laid on its shelf.
#[derive(Debug, PartialEq, Eq, Drop)]
pub struct ClosedVolume {
    pub(crate) entries: usize,
    pub(crate) last: usize,
}

// What opening a shelf answers.
#[derive(Debug, PartialEq, Eq, Drop)]
pub enum Volume {
    Open(OpenVolume),
    Closed(ClosedVolume),
}
