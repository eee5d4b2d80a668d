// The calendar, Gregorian throughout: the lengths of years and months, and the days before a date, by formulas with no table and no loop.
ghost use Rattle.std.specs.Prelude.{◌≡◌, cond, ◌+◌, ◌-◌, ◌≤◌, leb};
ghost use Rattle.rules.specs.Calendar.{is_leap, year_length, month_length, days_of_months, days_by_division, days_before};
ghost use Rattle.timestamp.specs.Moments.{InRange};

// Whether a year has 366 days.
pub fn is_leap(year: u64) -> bool
    ensures { result ≡ is_leap year }
{
    (year % 4 == 0) & ((year % 100 != 0) | (year % 400 == 0))
}

// The days of a year.
pub fn year_length(year: u64) -> u64
    ensures { result ≡ year_length year }
{
    if is_leap(year) { 366 } else { 365 }
}

// The days of a month, January being 1: 31 and 30 in turn, from August on beginning again with 31; February has 28 or 29.
pub fn month_length(year: u64, month: u64) -> u64
    requires fact_1 { 1 ≤ month }
    requires fact_2 { month ≤ 12 }
    ensures { result ≡ month_length year month }
{
    if month != 2 {
        return 30 + (month + month / 8) % 2;
    }
    if is_leap(year) { 29 } else { 28 }
}

// The days of a year before a month: as if the second had 30, less those that it has not.
pub fn days_before_month(year: u64, month: u64) -> u64
    requires fact_1 { 1 ≤ month }
    requires fact_2 { month ≤ 12 }
    ensures { result ≡ days_of_months year (month - 1) }
{
    let days = (367 * month - 362) / 12;
    if month <= 2 {
        return days;
    }
    if is_leap(year) { days - 1 } else { days - 2 }
}

// The days before a year, by division: a leap day for every fourth of the years before, less every hundredth, and again for every four
// hundredth.
pub fn days_before_year(year: u64) -> u64
    requires fact_1 { 1 ≤ year }
    requires fact_2 { year ≤ 10_000 }
    ensures { result ≡ days_by_division year }
{
    let n = year - 1;
    let hundreds = n / 100;
    365 * n + n / 4 - hundreds + hundreds / 4
}

// The year of the last March.
fn march_year(year: u64, month: u64) -> u64
    requires { 1 ≤ year }
    ensures { result ≡ cond (leb month 2) (year - 1) year }
{
    if month <= 2 { year - 1 } else { year }
}

// A month as counted in that year: January and February are its thirteenth and fourteenth.
fn march_month(month: u64) -> u64
    requires { month ≤ 12 }
    ensures { result ≡ cond (leb month 2) (month + 12) month }
{
    if month <= 2 { month + 12 } else { month }
}

// The days before a date: those of the years up to that of the last March, less the 306 from that March to the year's end, and those since
// that March began. So counted the leap day comes last, and five months in a row have 153 days. 307 is 306 and the date's own day.
pub fn days_before(year: u64, month: u64, day: u64) -> u64
    requires { InRange year month day }
    ensures { result ≡ days_before year month day }
{
    days_before_year(march_year(year, month) + 1) + (153 * march_month(month) - 457) / 5 + day - 307
}
