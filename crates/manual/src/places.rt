// How far the last core record has brought an item.
#[derive(Clone, Copy, Debug, PartialEq, Eq)]
pub enum Stage {
    // payment, deduction or extra reference
    Head,
    Information,
    Name,
    // address 1, behind which address 2 is due
    HalfAddress,
    Address,
    CompanyNumber,
}

// Where in a file the last core record has brought it.
#[derive(Clone, Copy, Debug, PartialEq, Eq)]
pub enum Place {
    // before the start record
    Fresh,
    // behind the start record
    Begun,
    // behind an opening record
    Opened,
    // in an item
    Within(Stage),
    // behind a deposit
    Between,
    // behind the end record
    Done,
}
