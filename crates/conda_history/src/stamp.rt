ghost use Rattle.std.specs.Prelude.{◌≡◌, ◌↔◌, ◌≤◌, ◌<◌, ◌++◌, ◌∷◌, IsTrue, OnOk, nat_eq, pos, string_bytes};
ghost use Rattle.std.specs.Cmp.Lexicographic.{pointwise};
ghost use Rattle.jiff_core.specs.Calendar.{IsDate};
ghost use Rattle.jiff_core.specs.Time.{IsTime};
ghost use Rattle.conda_history.specs.Stamps as stamps;

use conda_base::Copied;
use jiff::Timestamp;
use jiff::civil::DateTime;
use jiff::tz::Offset;
use std::alloc::AllocError;

/// A moment in UTC, to the second: a date of the years 0 to 9999 on the calendar of ISO 8601 and a
/// time of day.
#[derive(Clone, Copy, Debug, PartialEq, Eq, PartialOrd, Ord, Hash)]
pub struct Stamp {
    pub year: u16,
    pub month: u8,
    pub day: u8,
    pub hour: u8,
    pub minute: u8,
    pub second: u8,
}

impl Copied for Stamp {
    fn copy(&self) -> Result<Stamp, AllocError> {
        self.clone()
    }
}

/// The length of a moment's text.
pub const MOMENT_LENGTH: usize = 19;

impl Stamp {
    /// The moment in UTC so many seconds behind 1970-01-01 00:00:00, without leap seconds. It takes
    /// no memory.
    pub fn of(seconds: u64) -> Stamp
        requires { seconds ≤ 250_000_000_000 }
        ensures exists { stamps.Exists result }
        ensures moment { stamps.seconds_of result ≡ pos seconds }
    {
        let moment = Offset::UTC.to_datetime(Timestamp::constant(seconds as i64, 0));
        let date = moment.date().to_plain();
        let time = moment.time().to_plain();
        Stamp {
            year: date.year.unsigned_abs(),
            month: date.month,
            day: date.day,
            hour: time.hour,
            minute: time.minute,
            second: time.second,
        }
    }

    /// Appends the moment as `YYYY-MM-DD HH:MM:SS`. Of a stamp that doesn't exist it may append other
    /// characters than digits.
    pub fn push_text(self, text: &mut String) -> Result<(), AllocError>
        ensures { OnOk result (string_bytes text.new
            ≡ string_bytes text.old ++ stamps.moment_text self) }
    {
        push_date(text, self)?;
        text.push(' ')?;
        push_time(text, self)?;
        Ok(())
    }
}

/// Appends the date of a moment.
fn push_date(text: &mut String, stamp: Stamp) -> Result<(), AllocError>
    ensures { OnOk result (string_bytes text.new
        ≡ string_bytes text.old ++ stamps.date_text stamp) }
{
    push_two(text, stamp.year / 100)?;
    push_two(text, stamp.year % 100)?;
    push_next(text, '-', stamp.month)?;
    push_next(text, '-', stamp.day)
}

/// Appends the time of day of a moment.
fn push_time(text: &mut String, stamp: Stamp) -> Result<(), AllocError>
    ensures { OnOk result (string_bytes text.new
        ≡ string_bytes text.old ++ stamps.time_text stamp) }
{
    push_two(text, u16::from(stamp.hour))?;
    push_next(text, ':', stamp.minute)?;
    push_next(text, ':', stamp.second)
}

/// Appends a mark and a number behind it.
fn push_next(text: &mut String, mark: char, number: u8) -> Result<(), AllocError>
    requires { mark < 128 }
    ensures { OnOk result (string_bytes text.new
        ≡ string_bytes text.old ++ mark ∷ stamps.two_digits number) }
{
    text.push(mark)?;
    push_two(text, u16::from(number))
}

/// Appends a number below 100 in two digits.
fn push_two(text: &mut String, number: u16) -> Result<(), AllocError>
    requires { number < 800 }
    ensures { OnOk result (string_bytes text.new
        ≡ string_bytes text.old ++ stamps.two_digits number) }
{
    text.push(char::from(b'0' + (number / 10) as u8))?;
    text.push(char::from(b'0' + (number % 10) as u8))?;
    Ok(())
}

/// The digit at an offset, or 0 where none stands there.
fn digit_at(text: &[u8], at: usize) -> u8
    ensures digit { result ≡ stamps.digit_at text.now at }
    ensures small { result ≤ 9 }
{
    match text.get(at) {
        Some(byte) if byte.is_ascii_digit() => *byte - b'0',
        _ => 0,
    }
}

/// The number whose two digits begin at an offset.
fn two_at(text: &[u8], at: usize) -> u8
    requires { at < 99 }
    ensures number { result ≡ stamps.two_at text.now at }
    ensures small { result ≤ 99 }
{
    digit_at(text, at) * 10 + digit_at(text, at + 1)
}

/// The numbers that stand in the text of a moment.
fn stamp_at(text: &[u8]) -> Stamp
    ensures stamp { result ≡ stamps.stamp_at text.now }
    ensures small { stamps.IsShort result }
{
    Stamp {
        year: u16::from(two_at(text, 0)) * 100 + u16::from(two_at(text, 2)),
        month: two_at(text, 5),
        day: two_at(text, 8),
        hour: two_at(text, 11),
        minute: two_at(text, 14),
        second: two_at(text, 17),
    }
}

/// The text of a moment. Of a stamp that doesn't exist it may hold other characters than digits.
pub fn moment(stamp: Stamp) -> [u8; MOMENT_LENGTH]
    ensures { result ≡ stamps.moment_text stamp }
{
    let century = stamp.year / 100;
    let year = (stamp.year % 100) as u8;
    [
        b'0' + (century / 10) as u8,
        b'0' + (century % 10) as u8,
        b'0' + year / 10,
        b'0' + year % 10,
        b'-',
        b'0' + stamp.month / 10,
        b'0' + stamp.month % 10,
        b'-',
        b'0' + stamp.day / 10,
        b'0' + stamp.day % 10,
        b' ',
        b'0' + stamp.hour / 10,
        b'0' + stamp.hour % 10,
        b':',
        b'0' + stamp.minute / 10,
        b'0' + stamp.minute % 10,
        b':',
        b'0' + stamp.second / 10,
        b'0' + stamp.second % 10,
    ]
}

/// Whether the calendar has the date and the clock has the time, as `jiff` says.
fn is_moment(stamp: Stamp) -> bool
    requires { stamps.IsShort stamp }
    ensures { IsTrue result
        ↔ (IsDate (pos stamp.year) (pos stamp.month) (pos stamp.day)
        × IsTime (pos stamp.hour) (pos stamp.minute) (pos stamp.second) (pos 0)) }
{
    DateTime::new(
        stamp.year as i16,
        stamp.month as i8,
        stamp.day as i8,
        stamp.hour as i8,
        stamp.minute as i8,
        stamp.second as i8,
        0,
    )
    .is_ok()
}

/// Whether the calendar has the date and the clock has the time.
fn exists(stamp: Stamp) -> bool
    requires { stamps.IsShort stamp }
    ensures { result ≡ stamps.exists stamp }
{
    is_moment(stamp)
}

/// Whether the text is the moment of the stamp.
fn is_its_text(text: &[u8], stamp: Stamp) -> bool
    ensures { result ≡ pointwise nat_eq text.now (stamps.moment_text stamp) }
{
    let written = moment(stamp);
    text == written.as_slice()
}

/// The stamp of which the text is the moment, if there is one.
pub fn read_moment(text: &[u8]) -> Option<Stamp>
    ensures { result ≡ stamps.stamp_of text.now }
{
    let stamp = stamp_at(text);
    if !is_its_text(text, stamp) {
        return None;
    }
    if !exists(stamp) {
        return None;
    }
    Some(stamp)
}
