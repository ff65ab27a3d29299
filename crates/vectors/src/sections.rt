// Files made of sections: an opening record's words, and the amounts that are paid and deducted.
use std::alloc::{AllocError, Global};

// What an opening record has in 3 to 25: payee, plusgiro number and currency; then the amounts of its payments and of its
// deductions, in öre or cents, all of one payer.
pub(crate) type Section = (&'static str, &'static [u64], &'static [u64]);

// A payment or deduction, of the payer 815 and with no reference. Position 71 says of a deduction that it is whole; a payment has
// a reserve position there.
fn transfer(heap: Global, code: u8, amount: u64) -> Result<String, AllocError> {
    let blanks = "                         ";
    format!(in heap; "{code}0000000815{blanks}{amount:018}0000000000001700         \n")
}

// The deposit of a section, which has this currency.
fn deposit(heap: Global, currency: &str, sum: u64, many: usize) -> Result<String, AllocError> {
    let account = "00000000000000000000000000000000000";
    format!(in heap; "15{account}2031040200001{sum:018}{currency}{many:08} \n")
}

// What they come to; no test has as much as a u64 holds.
fn total(amounts: &[u64]) -> u64 {
    amounts
        .iter()
        .fold(0, |sum: u64, amount| sum.saturating_add(*amount))
}

fn lines_of(heap: Global, section: Section) -> Result<String, AllocError> {
    let (words, paid, deducted) = section;
    let blanks = "                                                       ";
    let mut lines = format!(in heap; "05{words}{blanks}\n")?;
    for amount in paid {
        lines.push_str(transfer(heap, 20, *amount)?.as_str())?;
    }
    for amount in deducted {
        lines.push_str(transfer(heap, 21, *amount)?.as_str())?;
    }
    let currency = if words.ends_with("EUR") { "EUR" } else { "SEK" };
    let sum = total(paid).saturating_sub(total(deducted));
    let many = paid.len().saturating_add(deducted.len());
    lines.push_str(deposit(heap, currency, sum, many)?.as_str())?;
    Ok(lines)
}

// A file of these sections, whose time stamp ends with the number.
pub(crate) fn file_of(
    heap: Global,
    number: usize,
    sections: &[Section],
) -> Result<String, AllocError> {
    let blanks = "                                   ";
    let mut lines = format!(in heap;
        "01BGMAX               012031040208150000{number:04}P{blanks}\n"
    )?;
    let mut payments = 0usize;
    let mut deductions = 0usize;
    for section in sections {
        payments = payments.saturating_add(section.1.len());
        deductions = deductions.saturating_add(section.2.len());
        lines.push_str(lines_of(heap, *section)?.as_str())?;
    }
    let deposits = sections.len();
    let counts = format!(in heap; "{payments:08}{deductions:08}00000000{deposits:08}")?;
    let counts = counts.as_str();
    let end = format!(in heap; "70{counts}{blanks}           \n")?;
    lines.push_str(end.as_str())?;
    Ok(lines)
}
