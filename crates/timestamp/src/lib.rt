// Timestamps: from a text to a tick, its precision and its span.
#![tactic(auto)]

ghost use Rattle.std.specs.Prelude.{◌≡◌, true, ◌+◌, ◌-◌, ◌*◌, ◌^◌, ◌≤◌, ◌<◌};
ghost use Rattle.rules.specs.Basics.{is_from};
ghost use Rattle.rules.specs.Timestamp.{is_offset_time, is_zone, shift_of, read_timestamp};
ghost use Rattle.timestamp.specs.Written.{zone_of, SmallZone, fourteen_written};
ghost use Rattle.timestamp.specs.Moments.{is_date_of, is_clock_of, unit_ticks, Possible, moment_written, outcome_of};

pub mod calendar;
mod form;
mod fourteen;
mod shift;
pub mod tick;

use form::{Offset, Written};
use fourteen::Numbers;
use refusal::Refusal;
pub use shift::Shift;
use tick::Tick;

// A moment: its start and the next start of its smallest written unit, in ticks from fourteen hours before 0001-01-01 00:00, and its
// precision, the count of digits written before any offset. Its span is from its start up to, not including, the next.
#[derive(Clone, Copy)]
pub struct Moment {
    pub start: u64,
    pub precision: u64,
    pub next: u64,
}

// Whether a number lies in a range.
fn in_range(x: u64, low: u64, high: u64) -> bool
    ensures { result ≡ is_from low high x }
{
    (low..=high).contains(&x)
}

// Whether numbers are a date of the calendar, in years 0001 to 9999. Every month has at least 28 days, and only a later day asks for its length.
fn is_date(year: u64, month: u64, day: u64) -> bool
    ensures { result ≡ is_date_of year month day }
{
    if !in_range(year, 1, 9999) {
        return false;
    }
    if !in_range(month, 1, 12) {
        return false;
    }
    if in_range(day, 1, 28) {
        return true;
    }
    in_range(day, 29, calendar::month_length(year, month))
}

// Whether numbers are a time of the day.
fn is_clock(hour: u64, minute: u64, second: u64) -> bool
    ensures { result ≡ is_clock_of hour minute second }
{
    (hour <= 23) & (minute <= 59) & (second <= 59)
}

// Whether hours and minutes are an offset: minutes 00 to 59, and 14:00 at most.
fn is_offset_time(hours: u64, minutes: u64) -> bool
    requires { (hours < 100) × (minutes < 100) }
    ensures { result ≡ is_offset_time hours minutes }
{
    (minutes <= 59) & (60 * hours + minutes <= 840)
}

// Whether an offset is possible; the agreed one, where none is written, is.
fn is_zone(zone: Option<Offset>) -> bool
    requires { SmallZone zone }
    ensures { result ≡ is_zone (zone_of zone) }
{
    let Some(offset) = zone else {
        return true;
    };
    is_offset_time(offset.hours, offset.minutes)
}

// The minutes to add for an offset, which is subtracted: 840 less the one written, or `shift`, 840 less the one agreed.
fn minutes_to_add(zone: Option<Offset>, shift: Shift) -> u64
    requires fact_1 { SmallZone zone }
    requires fact_2 { is_zone (zone_of zone) ≡ true }
    ensures { (result ≡ shift_of shift.minutes (zone_of zone)) × (result ≤ 1680) }
{
    let Some(offset) = zone else {
        return shift.minutes;
    };
    let minutes = 60 * offset.hours + offset.minutes;
    if offset.is_behind {
        840 + minutes
    } else {
        840 - minutes
    }
}

// The ticks of the last digit of a second that is written with so many digits of a fraction.
fn digit_ticks(digits: usize) -> u64
    requires { digits ≤ 4 }
    ensures { result ≡ 10 ^ (4 - digits) }
{
    match digits {
        0 => 10_000,
        1 => 1_000,
        2 => 100,
        3 => 10,
        _ => 1,
    }
}

// The ticks of the smallest unit written, by how many parts follow the year and how many digits a fraction has.
fn unit_ticks(year: u64, month: u64, parts: usize, digits: usize) -> u64
    requires fact_1 { 1 ≤ month }
    requires fact_2 { month ≤ 12 }
    requires fact_3 { parts ≤ 5 }
    requires fact_4 { digits ≤ 4 }
    ensures { (result ≡ unit_ticks year month parts digits) × (result ≤ 366 * 864_000_000) }
{
    match parts {
        0 => calendar::year_length(year) * Tick::DAY.0,
        1 => calendar::month_length(year, month) * Tick::DAY.0,
        2 => Tick::DAY.0,
        3 => Tick::HOUR.0,
        4 => Tick::MINUTE.0,
        _ => digit_ticks(digits),
    }
}

// The moment of what is written.
fn make_moment(w: Written, shift: Shift) -> Moment
    requires { Possible shift.minutes w }
    ensures { result ≡ moment_written shift.minutes w }
{
    let p = w.parts;
    let f = w.fraction;
    let date = Tick::of_date(w.year, p.month, p.day);
    let clock = Tick::of_clock(p.hour, p.minute, p.second, f.value);
    let start = date.0 + clock.0 + minutes_to_add(w.zone, shift) * Tick::MINUTE.0;
    Moment {
        start,
        precision: 4 + 2 * (p.count as u64) + (f.count as u64),
        next: start + unit_ticks(w.year, p.month, p.count, f.count),
    }
}

// The moment of fourteen digits.
fn fourteen_moment(n: Numbers, shift: Shift) -> Moment
    requires { Possible shift.minutes (fourteen_written n) }
    ensures { result ≡ moment_written shift.minutes (fourteen_written n) }
{
    let date = Tick::of_date(n.year, n.month, n.day);
    let clock = Tick::of_clock(n.hour, n.minute, n.second, 0);
    let start = date.0 + clock.0 + shift.minutes * Tick::MINUTE.0;
    Moment {
        start,
        precision: 14,
        next: start + Tick::SECOND.0,
    }
}

// Reads a text as a timestamp; `shift` is 840 less the agreed offset in minutes. A text of the wrong form is VALUE. Of one of the right
// form an impossible date is DATE, else an impossible clock CLOCK, else an impossible offset ZONE. Fourteen digits go a shorter way to the
// same answer.
pub fn read(text: &[u8], shift: Shift) -> Result<Moment, Refusal>
    ensures { outcome_of result ≡ read_timestamp shift.minutes text.now }
{
    if let Some(n) = fourteen::read(text) {
        if !is_date(n.year, n.month, n.day) {
            return Err(Refusal::Date);
        }
        if !is_clock(n.hour, n.minute, n.second) {
            return Err(Refusal::Clock);
        }
        return Ok(fourteen_moment(n, shift));
    }
    let w = form::read_form(text).ok_or(Refusal::Value)?;
    let p = w.parts;
    if !is_date(w.year, p.month, p.day) {
        return Err(Refusal::Date);
    }
    if !is_clock(p.hour, p.minute, p.second) {
        return Err(Refusal::Clock);
    }
    if !is_zone(w.zone) {
        return Err(Refusal::Zone);
    }
    Ok(make_moment(w, shift))
}
