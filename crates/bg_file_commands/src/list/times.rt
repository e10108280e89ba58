//! The time of an event.

use bg_text::put_text;
use std::alloc::{AllocError, Global};

const SECONDS_OF_DAY: u64 = 86_400;

/// The last year that is written by its own number.
const LAST_YEAR: u64 = 9999;

/// Appends the date and the time of day, in UTC, of a time in seconds since 1970, as in
/// `2026-11-27T09:21:40Z`, and these words around it.
pub(crate) fn put_time(
    alloc: Global,
    out: &mut Vec<u8>,
    before: &str,
    seconds: u64,
    behind: &str,
) -> Result<(), AllocError> {
    let (year, month, day) = date_of(seconds / SECONDS_OF_DAY);
    let second = seconds % SECONDS_OF_DAY;
    let (hour, minute, second) = (second / 3600, second / 60 % 60, second % 60);
    let text = format!(in alloc;
        "{before}{year}-{month:02}-{day:02}T{hour:02}:{minute:02}:{second:02}Z{behind}"
    )?;
    put_text(out, text.as_str())
}

/// Returns the year, the month and the day of the date this number of days after the start of 1970.
fn date_of(days: u64) -> (u64, u64, u64) {
    let mut left = days;
    for year in 1970..LAST_YEAR {
        for (month, length) in (1..=12).zip(months_of(year)) {
            if left < length {
                return (year, month, left + 1);
            }
            left -= length;
        }
    }
    (LAST_YEAR, 12, 31)
}

/// Returns the number of days of each month of a year.
fn months_of(year: u64) -> [u64; 12] {
    let is_leap = year % 4 == 0 && (year % 100 != 0 || year % 400 == 0);
    let february = if is_leap { 29 } else { 28 };
    [31, february, 31, 30, 31, 30, 31, 31, 30, 31, 30, 31]
}
