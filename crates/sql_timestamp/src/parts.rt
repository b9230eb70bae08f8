//! The parts of a timestamp, and adding to them.
ghost use Rattle.std.specs.Prelude.{◌≡◌, ◌-◌, ◌≤◌, pos, ◌+ℤ◌, ◌*ℤ◌, ◌≤ℤ◌, IsTrue, true, MatchOption};
ghost use Rattle.std.specs.Int.{IsInRange};
ghost use Rattle.sql_timestamp.specs.Instants.{is_day, local_day};
ghost use Rattle.sql_timestamp.specs.Calendars.{year_of, month_of, day_of};
ghost use Rattle.sql_timestamp.specs.Parts.{extracted, is_moved, date_added, in_range, cut_day, months_later, IsMonth, NoMonth};

use crate::fault::ValueFault;
use crate::part::Part;
use crate::stamp::Stamp;
use jiff_core::civil::Date;

/// The date of a day number.
fn date_of(day: i64) -> Date
    requires { is_day day ≡ true }
    ensures year { result.year ≡ pos (year_of day) }
    ensures month { result.month ≡ month_of day }
    ensures day { result.day ≡ day_of day }
{
    Date::from_days_since_min((day + 4_371_587) as u32)
}

/// Why there is no timestamp.
fn in_time(stamp: Option<Stamp>) -> Result<Stamp, ValueFault>
    ensures { result ≡ in_range stamp }
{
    match stamp {
        Some(stamp) => Ok(stamp),
        None => Err(ValueFault::TimestampOutOfRange),
    }
}

/// A month of a year.
#[derive(Drop)]
struct Month {
    year: i16,
    month: u8,
}

/// The months since January of the year 0.
fn month_number(date: Date) -> i64
    ensures value { result ≡ date.year *ℤ pos 12 +ℤ pos (date.month - 1) }
{
    i64::from(date.year) * 12 + i64::from(date.month - 1)
}

/// The month of that number, or None where its year isn't from 1 to 9999.
fn month_at(number: i64) -> Option<Month>
    ensures { MatchOption result (NoMonth number) (λ m. IsMonth number m.year m.month) }
{
    let year = number.div_euclid(12);
    if year < 1 || year > 9_999 {
        return None;
    }
    Some(Month {
        year: year as i16,
        month: number.rem_euclid(12) as u8 + 1,
    })
}

/// The day number of the day in a month, or of the month's last where it has none.
fn day_in(month: Month, day: u8) -> i64
    requires low { pos 1 ≤ℤ month.year }
    requires high { month.year ≤ℤ pos 9_999 }
    requires month { IsInRange 1 12 month.month }
    requires day { 1 ≤ day }
    ensures value { result ≡ cut_day month.year month.month day }
    ensures year { is_day result ≡ true }
{
    i64::from(Date::constrain(month.year, month.month, day).to_unix_epoch_day())
}

impl Stamp {
    /// The date that the clock shows.
    pub(crate) fn date(&self) -> Date
        ensures year { result.year ≡ pos (year_of (local_day self.now)) }
        ensures month { result.month ≡ month_of (local_day self.now) }
        ensures day { result.day ≡ day_of (local_day self.now) }
    {
        date_of(self.shown().day)
    }

    /// A part of what the clock shows, the second without its fraction, or of the offset, with its sign.
    pub fn extract(&self, part: Part) -> i64
        ensures { result ≡ extracted part self.now }
    {
        match part {
            Part::Year => i64::from(self.date().year),
            Part::Month => i64::from(self.date().month),
            Part::Day => i64::from(self.date().day),
            Part::Hour => i64::from(self.shown().second / 3_600),
            Part::Minute => i64::from(self.shown().second / 60 % 60),
            Part::Second => i64::from(self.shown().second % 60),
            Part::TimezoneHour => i64::from(self.offset() / 60),
            Part::TimezoneMinute => i64::from(self.offset() % 60),
        }
    }

    /// The timestamp so many years, months, days, hours, minutes or seconds later.
    ///
    /// Years and months move the date that the clock shows, and a day that the month lacks becomes the
    /// month's last; the others move the instant. TimestampOutOfRange where the clock would show no
    /// year from 1 to 9999.
    pub fn date_add(&self, part: Part, n: i64) -> Result<Stamp, ValueFault>
        requires { IsTrue (is_moved part) }
        ensures { result ≡ date_added part self.now n }
    {
        match part {
            Part::Year => self.months_later(n, 12),
            Part::Month => self.months_later(n, 1),
            Part::Day => in_time(self.later(n, 86_400)),
            Part::Hour => in_time(self.later(n, 3_600)),
            Part::Minute => in_time(self.later(n, 60)),
            Part::Second => in_time(self.later(n, 1)),
            Part::TimezoneHour | Part::TimezoneMinute => unreachable!(),
        }
    }

    /// `n` times so many months later on the clock's calendar.
    fn months_later(&self, n: i64, unit: i64) -> Result<Stamp, ValueFault>
        ensures { result ≡ months_later self.now (n *ℤ unit) }
    {
        let shown = self.shown();
        let date = self.date();
        let first = month_number(date);
        let Some(more) = n.checked_mul(unit) else {
            return Err(ValueFault::TimestampOutOfRange);
        };
        let Some(number) = first.checked_add(more) else {
            return Err(ValueFault::TimestampOutOfRange);
        };
        let Some(month) = month_at(number) else {
            return Err(ValueFault::TimestampOutOfRange);
        };
        let day = day_in(month, date.day);
        Ok(Stamp::at(day, shown.second, shown.nanosecond, self.offset()))
    }
}
