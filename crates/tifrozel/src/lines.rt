// Rows and records as the lines that are printed.
use field::Currency;
use record::Row;
use report::Pair;
use std::fmt;

// A row as a line: number, code, party, money with two decimals, serial and form. A type of its own, since the line is the
// program's and the row the library's.
#[derive(Clone, Copy, Debug, PartialEq, Eq)]
pub struct RowLine(pub Row);

impl fmt::Display for RowLine {
    fn fmt<W: fmt::Write>(&self, f: &mut fmt::Formatter<W>) -> fmt::Result {
        let row = self.0;
        let number = row.number;
        let code = row.code;
        let party = row.party;
        let whole = row.money / 100;
        let part = row.money % 100;
        let serial = row.serial;
        let form = row.reference;
        writeln!(
            f,
            "  {number} {code:02} {party} {whole}.{part:02} {serial} {form}"
        )
    }
}

// A record as a line behind two blanks. Its bytes are Latin-1, and each is printed as its character.
#[derive(Clone, Copy, Debug, PartialEq, Eq)]
pub struct RecordLine(pub [u8; 80]);

impl fmt::Display for RecordLine {
    fn fmt<W: fmt::Write>(&self, f: &mut fmt::Formatter<W>) -> fmt::Result {
        f.write_str("  ")?;
        for byte in &self.0 {
            f.write_char(*byte as char)?;
        }
        f.write_str("\n")
    }
}

// A row of a balance as a line: payee, currency, and what was paid less what was deducted, with two decimals. That is never below zero,
// as it is what the deposits come to.
#[derive(Clone, Copy, Debug, PartialEq, Eq)]
pub struct BalanceLine(pub sums::Row<Pair>);

impl fmt::Display for BalanceLine {
    fn fmt<W: fmt::Write>(&self, f: &mut fmt::Formatter<W>) -> fmt::Result {
        let row = self.0;
        let payee = row.key.payee;
        let currency = match row.key.currency {
            Currency::Sek => "SEK",
            Currency::Eur => "EUR",
        };
        let left = row.added.saturating_sub(row.taken);
        let whole = left / 100;
        let part = left % 100;
        writeln!(f, "  {payee} {currency} {whole}.{part:02}")
    }
}
