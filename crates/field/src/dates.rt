ghost use Rattle.std.specs.Prelude.{◌≡◌, length};
ghost use Rattle.field.specs.Dates.{is_leap, days_in, date_of, stamp_of};

use crate::numbers::{read_number, read_twenty};

#[derive(Clone, Copy, Debug, PartialEq, Eq)]
pub struct Date {
    pub year: u64,
    pub month: u64,
    pub day: u64,
}

// The days of each month in a common year; both dates and time stamps are judged by it.
const MONTH_LENGTHS: [u8; 12] = [31, 28, 31, 30, 31, 30, 31, 31, 30, 31, 30, 31];

fn leap(year: u64) -> bool
    ensures { result ≡ is_leap year }
{
    year % 4 == 0 && (year % 100 != 0 || year % 400 == 0)
}

// The days of a month; 0 where there is no such month, so that no day is in it, and no case more is to be asked for.
fn days_in(year: u64, month: u64) -> u64
    ensures { result ≡ days_in year month }
{
    if month == 0 || month > 12 {
        return 0;
    }
    if month == 2 && leap(year) {
        return 29;
    }
    u64::from(MONTH_LENGTHS[month as usize - 1])
}

pub fn read_date(part: &[u8]) -> Option<Date>
    requires { length part.now ≡ 8 }
    ensures { result ≡ date_of part.now }
{
    let year = read_number(&part[0..4])?;
    let month = read_number(&part[4..6])?;
    let day = read_number(&part[6..8])?;
    (1 <= day && day <= days_in(year, month)).then_some(Date { year, month, day })
}

// A time stamp's twenty digits as one number, so that two stamps are equal where their digits are.
pub fn read_time_stamp(part: &[u8]) -> Option<u128>
    requires { length part.now ≡ 20 }
    ensures { result ≡ stamp_of part.now }
{
    read_date(&part[0..8])?;
    let hour = read_number(&part[8..10])?;
    let minute = read_number(&part[10..12])?;
    let second = read_number(&part[12..14])?;
    if hour <= 23 && minute <= 59 && second <= 59 {
        read_twenty(part)
    } else {
        None
    }
}
