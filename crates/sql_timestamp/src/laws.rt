//! The law of the calendar's definitions.
ghost use Rattle.std.specs.Prelude.{◌≡◌, ℕ, ℤ, true};
ghost use Rattle.sql_timestamp.specs.Instants.{is_day};
ghost use Rattle.sql_timestamp.specs.Calendars.{IsDateOf, year_of, month_of, day_of};

/// Each day of the years 1 to 9999 has one date in the proleptic Gregorian calendar: the year, the
/// month and the day that the definitions count.
pub fn each_day_has_one_date()
    ensures date { (day : ℤ) → is_day day ≡ true → IsDateOf day (year_of day) (month_of day) (day_of day) }
    ensures alone { (day : ℤ) (y m d : ℕ) → is_day day ≡ true → IsDateOf day y m d → (y ≡ year_of day) × (m ≡ month_of day) × (d ≡ day_of day) }
{}
