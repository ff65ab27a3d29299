// What is shown of a record, by its class.
ghost use Rattle.std.specs.Prelude.{◌≡◌};
ghost use Rattle.record.specs.Rows.{bare_row};
ghost use Rattle.report.specs.Rows.{row_in as row_in_term};

use field::ReferenceForm;
use record::{Class, Row, core_row};

// A rider's row: number and code only.
fn rider_row(number: usize, code: u8) -> Row
    ensures { result ≡ bare_row number code }
{
    Row {
        number,
        code,
        party: 0,
        money: 0,
        serial: 0,
        reference: ReferenceForm::Absent,
    }
}

/// The row of the record with this number, if it has one: unknown records have none.
pub fn row_in(number: usize, class: Class) -> Option<Row>
    ensures { result ≡ row_in_term number class }
{
    match class {
        Class::Core(_, read) => read.ok().map(|core| core_row(number, core)),
        Class::Rider(rider) => Some(rider_row(number, rider.code)),
        Class::BadCode | Class::Unknown => None,
    }
}
