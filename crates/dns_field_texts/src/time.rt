//! Times of signatures as text: a date and a time of day, or a number of seconds (RFC 4034, section 3.2).
ghost use Rattle.std.specs.Prelude.{◌≡◌, ◌+◌, ◌-◌, ◌*◌, ◌/◌, ◌%◌, ◌^◌, ◌<◌, ◌≤◌, ◌==◌, ℕ, true, Some, length, slice_range};
ghost use Rattle.std.specs.Char.{is_ascii_digit, digit_value};
ghost use Rattle.std.specs.Fmt.{DisplaysOnOk};
ghost use Rattle.std.specs.List.{list_all};
ghost use Rattle.std.specs.Str.Parse.{digits_value};
ghost use Rattle.dns_values.specs.Mnemonic.{number_spelled};
ghost use Rattle.dns_field_texts.specs.Time as of_time;
ghost use Rattle.dns_field_texts.specs.Time.{is_moment, days_of_years, days_of_months, time_of, time_read, time_written};

use crate::digits::{are_digits, as_digits};
use std::fmt;
use std::simd::prelude::*;

/// How many times there are: 2^32.
const TIMES: i64 = 4_294_967_296;

/// How many days are before 1970, from the beginning of the year 1 on.
const DAYS_BEFORE_1970: u32 = 719_162;

/// A date and a time of day in UTC.
#[derive(Clone, Copy, Debug)]
struct Moment {
    year: u32,
    month: u32,
    day: u32,
    hour: u32,
    minute: u32,
    second: u32,
}

impl Moment {
    /// Returns whether the calendar has this date from the year 1 to 9999, and a day has this time.
    fn exists(&self) -> bool
        ensures { result ≡ is_moment self.now }
    {
        1 <= self.year
            && self.year <= 9999
            && 1 <= self.month
            && self.month <= 12
            && 1 <= self.day
            && self.day <= days_in_month(self.year, self.month)
            && self.hour <= 23
            && self.minute <= 59
            && self.second <= 59
    }

    /// Returns the seconds from the beginning of 1970 to the moment, which are negative for an earlier one, modulo 2^32.
    fn to_time(&self) -> u32
        requires { is_moment self.now ≡ true }
        ensures { result ≡ time_of self.now }
    {
        let month_start = days_before_year(self.year) + days_before_month(self.year, self.month);
        let days = month_start + self.day - 1;
        let of_day = 3_600 * self.hour + 60 * self.minute + self.second;
        let seconds = 86_400 * (i64::from(days) - i64::from(DAYS_BEFORE_1970)) + i64::from(of_day);
        seconds.rem_euclid(TIMES) as u32
    }

    /// Returns the moment after that number of seconds from the beginning of 1970 on.
    fn after(time: u32) -> Self
        ensures is { result ≡ of_time.moment_after time }
        ensures exists { is_moment result ≡ true }
    {
        let days = DAYS_BEFORE_1970 + time / 86_400;
        let year = year_after(days);
        let rest = days - days_before_year(year);
        let month = month_after(year, rest);
        Moment {
            year,
            month,
            day: rest - days_before_month(year, month) + 1,
            hour: time % 86_400 / 3_600,
            minute: time % 3_600 / 60,
            second: time % 60,
        }
    }
}

/// Returns the time that a text is of: 14 digits are a moment, whose seconds are taken modulo 2^32, and up to ten digits
/// are the number of seconds.
#[tactic(auto, unfolding(crate::specs::Time::time_read))]
pub fn read_time(text: &[u8]) -> Option<u32>
    ensures { result ≡ time_read text.now }
{
    match text.len() {
        14 => read_moment(text),
        0..=10 => read_seconds(text),
        _ => None,
    }
}

/// Returns the number of 32 bits that these digits spell.
#[tactic(auto, using(dns_values::proofs::Words::spelled_rules))]
fn read_seconds(text: &[u8]) -> Option<u32>
    ensures { result ≡ number_spelled (2 ^ 32) text.now }
{
    as_digits(text)?.parse().ok()
}

/// Returns the time of a moment that is written as YYYYMMDDHHmmSS.
#[tactic(auto, unfolding(crate::specs::Time::moment_read))]
fn read_moment(text: &[u8]) -> Option<u32>
    requires { length text.now ≡ 14 }
    ensures { result ≡ of_time.moment_read text.now }
{
    if !are_eight_digits(&text[..8]) || !are_eight_digits(&text[6..]) {
        return None;
    }
    let moment = moment_of(text);
    if moment.exists() {
        Some(moment.to_time())
    } else {
        None
    }
}

/// Returns whether eight octets are digits.
#[inline(always)]
fn are_eight_digits(octets: &[u8]) -> bool
    requires { length octets.now ≡ 8 }
    ensures { result ≡ list_all is_ascii_digit octets.now }
{
    (u8x8::from_slice(octets) - u8x8::splat(b'0'))
        .simd_lt(u8x8::splat(10))
        .all()
}

/// Returns the moment of 14 digits, which may be none of the calendar.
#[tactic(auto, using(crate::proofs::Calendar::digit_rules), unfolding(crate::specs::Time::moment_of))]
fn moment_of(text: &[u8]) -> Moment
    requires long { length text.now ≡ 14 }
    requires digits { list_all is_ascii_digit text.now ≡ true }
    ensures { result ≡ of_time.moment_of text.now }
{
    Moment {
        year: 100 * two_digits(text, 0) + two_digits(text, 2),
        month: two_digits(text, 4),
        day: two_digits(text, 6),
        hour: two_digits(text, 8),
        minute: two_digits(text, 10),
        second: two_digits(text, 12),
    }
}

/// Returns the number of the two digits at a place.
fn two_digits(text: &[u8], place: usize) -> u32
    requires within { place + 2 ≤ length text.now }
    requires digits { list_all is_ascii_digit text.now ≡ true }
    ensures is { result ≡ digits_value 10 (slice_range text.now place (place + 2)) }
    ensures small { result < 100 }
{
    10 * digit(text[place]) + digit(text[place + 1])
}

/// Returns the number of a digit.
fn digit(octet: u8) -> u32
    requires { is_ascii_digit octet ≡ true }
    ensures is { result ≡ digit_value octet }
    ensures small { result < 10 }
{
    u32::from(octet - b'0')
}

/// Returns whether the year has a 29 February.
fn is_leap_year(year: u32) -> bool
    ensures { result ≡ of_time.is_leap_year year }
{
    year % 4 == 0 && (year % 100 != 0 || year % 400 == 0)
}

/// Returns the number of days of a month.
fn days_in_month(year: u32, month: u32) -> u32
    ensures { result ≡ of_time.days_in_month year month }
{
    match month {
        2 if is_leap_year(year) => 29,
        2 => 28,
        4 | 6 | 9 | 11 => 30,
        _ => 31,
    }
}

/// Returns the number of days from the beginning of the year 1 to that of the year.
#[tactic(auto, using(crate::proofs::Calendar::year_rules))]
fn days_before_year(year: u32) -> u32
    requires { 1 ≤ year × (year ≤ 10000) }
    ensures is { result ≡ days_of_years (year - 1) }
    ensures small { result < 3700000 }
{
    let past = year - 1;
    365 * past + past / 4 + past / 400 - past / 100
}

/// Returns the number of days of the year before the month.
#[tactic(auto, using(crate::proofs::Calendar::month_rules))]
fn days_before_month(year: u32, month: u32) -> u32
    requires { 1 ≤ month × (month ≤ 12) }
    ensures is { result ≡ days_of_months year (month - 1) }
    ensures small { result < 336 }
{
    let common = COMMON_MONTHS[(month - 1) as usize];
    if month > 2 && is_leap_year(year) {
        common + 1
    } else {
        common
    }
}

/// The days before each month in a year that is no leap year.
static COMMON_MONTHS: [u32; 12] = [0, 31, 59, 90, 120, 151, 181, 212, 243, 273, 304, 334];

/// Returns the year after that number of days from the beginning of the year 1 on.
fn year_after(days: u32) -> u32
    requires { days < 768873 }
    ensures is { result ≡ of_time.year_after days }
    ensures from { 1 ≤ result × (result ≤ 2106) }
    ensures begun { days_of_years (result - 1) ≤ days }
    ensures goes_on { days < days_of_years (result - 1 + 1) }
{
    let mut year = 1 + days / 366;
    while days_before_year(year + 1) <= days {
        year += 1;
    }
    year
}

/// Returns the month after that number of days of the year.
fn month_after(year: u32, days: u32) -> u32
    requires { days < 366 }
    ensures is { result ≡ of_time.month_after year days }
    ensures from { 1 ≤ result × (result ≤ 12) }
    ensures begun { days_of_months year (result - 1) ≤ days }
{
    let mut month = 1;
    while month < 12 && days_before_month(year, month + 1) <= days {
        month += 1;
    }
    month
}

/// What shows a time in 14 digits, as YYYYMMDDHHmmSS.
#[derive(Debug, Drop)]
pub struct DisplayTime(pub u32);

impl fmt::Display for DisplayTime {
    ghost output = { λ time. Some (time_written time.0) };

    #[tactic(auto, unfolding(crate::specs::Time::time_written))]
    fn fmt<W: fmt::Write>(&self, f: &mut fmt::Formatter<W>) -> fmt::Result {
        let moment = Moment::after(self.0);
        write_moment(f, &moment)
    }
}

/// Writes a moment in 14 digits.
#[tactic(auto, unfolding(crate::specs::Time::moment_written))]
fn write_moment<W: fmt::Write>(f: &mut fmt::Formatter<W>, moment: &Moment) -> fmt::Result
    requires { is_moment moment.now ≡ true }
    ensures { DisplaysOnOk W.write_str_gives f.old result (Some (of_time.moment_written moment.now)) f.new }
{
    write_date(f, moment.year, moment.month, moment.day)?;
    write_clock(f, moment.hour, moment.minute, moment.second)
}

/// Writes a date in eight digits.
#[tactic(auto, unfolding(crate::specs::Time::date_written))]
fn write_date<W: fmt::Write>(
    f: &mut fmt::Formatter<W>,
    year: u32,
    month: u32,
    day: u32,
) -> fmt::Result
    requires { year < 10000 × (month < 100) × (day < 100) }
    ensures { DisplaysOnOk W.write_str_gives f.old result (Some (of_time.date_written year month day)) f.new }
{
    write_two(f, year / 100)?;
    write_two(f, year % 100)?;
    write_two(f, month)?;
    write_two(f, day)
}

/// Writes a time of day in six digits.
#[tactic(auto, unfolding(crate::specs::Time::clock_written))]
fn write_clock<W: fmt::Write>(
    f: &mut fmt::Formatter<W>,
    hour: u32,
    minute: u32,
    second: u32,
) -> fmt::Result
    requires { hour < 100 × (minute < 100) × (second < 100) }
    ensures { DisplaysOnOk W.write_str_gives f.old result (Some (of_time.clock_written hour minute second)) f.new }
{
    write_two(f, hour)?;
    write_two(f, minute)?;
    write_two(f, second)
}

/// Writes a number in two digits.
fn write_two<W: fmt::Write>(f: &mut fmt::Formatter<W>, number: u32) -> fmt::Result
    requires { number < 100 }
    ensures { DisplaysOnOk W.write_str_gives f.old result (Some (of_time.two_digits number)) f.new }
{
    f.write_char(char::from(b'0' + (number / 10) as u8))?;
    f.write_char(char::from(b'0' + (number % 10) as u8))
}
