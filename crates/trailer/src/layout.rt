// What an entry comes to: its payments and deductions, and its deposits by currency, in öre and in cents.
#[derive(Clone, Copy, Debug, PartialEq, Eq)]
pub struct Totals {
    pub payments: u64,
    pub deductions: u64,
    pub sek: u64,
    pub eur: u64,
}

// What the record behind an entry on a shelf says of it.
#[derive(Clone, Copy, Debug, PartialEq, Eq)]
pub struct Trailer {
    // how many records the entry has
    pub records: u64,
    // the entry's number, from 1
    pub entry: u64,
    // the shelf number of the trailer before it; 0 if there is none, as the record has it
    pub previous: u64,
    pub totals: Totals,
}
