// The date of a day, found by division: no step is taken for each year.
ghost use Rattle.std.specs.Prelude.{◌≡◌, ◌<◌, ◌≤◌};
ghost use Rattle.rules.specs.Calendar.{year_length};
ghost use Rattle.printing.specs.Dates.{date_at, InYear, InMonth};

use timestamp::calendar;

// A date of the calendar.
#[derive(Clone, Copy)]
pub struct Date {
    pub year: u64,
    pub month: u64,
    pub day: u64,
}

// The year of a day, counted from 0001-01-01: 400 years have 146,097 days, and one more than the quotient is that year or the one before.
fn year_of(days: u64) -> u64
    requires { days < 3_652_059 }
    ensures { InYear days result }
{
    let year = 400 * days / 146_097 + 1;
    if calendar::days_before_year(year + 1) <= days {
        return year + 1;
    }
    year
}

// The month of a day of a year, the first day being 0: no month has over 31 days, and one more than the quotient is that month or the one before.
fn month_of(year: u64, day: u64) -> u64
    requires { day < year_length year }
    ensures { InMonth year day result }
{
    let month = day / 31 + 1;
    if month < 12 {
        if calendar::days_before_month(year, month + 1) <= day {
            return month + 1;
        }
    }
    month
}

// The date of a day in years 0001 to 9999, counted from 0001-01-01.
pub fn date_of(days: u64) -> Date
    requires { days < 3_652_059 }
    ensures { result ≡ date_at days }
{
    let year = year_of(days);
    let passed = days - calendar::days_before_year(year);
    let month = month_of(year, passed);
    let day = passed - calendar::days_before_month(year, month) + 1;
    Date { year, month, day }
}
