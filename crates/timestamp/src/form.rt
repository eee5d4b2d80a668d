// The form of a timestamp: what is written, before anything is asked of its numbers.
ghost use Rattle.std.specs.Prelude.{◌≡◌, cond, List, [], ◌∷◌, ◌++◌, ℕ, ◌+◌, ◌^◌, ◌≤◌, ◌<◌, eqb, length};
ghost use Rattle.timestamp.specs.Written.{parts_of, PartsAt, HoursAt, ZoneAt, ZoneBy, fraction_after, zone_after, FormOf};
ghost use Rattle.text.specs.Numbers.{FractionBy};

use text::digits;
use text::digits::Fraction;

// The numbers of MM, DD, hh, mm and ss as far as they go, missing ones at their first value; `end` is past them.
#[derive(Clone, Copy)]
pub struct Parts {
    pub count: usize,
    pub month: u64,
    pub day: u64,
    pub hour: u64,
    pub minute: u64,
    pub second: u64,
    pub end: usize,
}

// An offset as written: whether it is behind, written with a minus, and its hours and minutes.
#[derive(Clone, Copy)]
pub struct Offset {
    pub is_behind: bool,
    pub hours: u64,
    pub minutes: u64,
}

// Hours and minutes of an offset; `end` is past them.
#[derive(Clone, Copy)]
pub struct Hours {
    pub hours: u64,
    pub minutes: u64,
    pub end: usize,
}

// An offset, or none: then the agreed one holds; `end` is past it.
#[derive(Clone, Copy)]
pub struct Zoned {
    pub zone: Option<Offset>,
    pub end: usize,
}

// A timestamp as written.
#[derive(Clone, Copy)]
pub struct Written {
    pub year: u64,
    pub parts: Parts,
    pub fraction: Fraction,
    pub zone: Option<Offset>,
}

// A number where one more part is read into its place, the number before elsewhere.
fn placed(before: u64, place: usize, count: usize, n: u64) -> u64
    ensures { result ≡ cond (eqb count place) n before }
{
    if count == place {
        return n;
    }
    before
}

// The parts with one more after them, of two digits.
fn with_next(p: Parts, n: u64) -> Parts
    requires fact_1 { p.count < 5 }
    requires fact_2 { p.end + 2 < 2 ^ 64 }
    ensures { (l : List ℕ) → p ≡ parts_of l p.end → result ≡ parts_of (l ++ n ∷ []) (p.end + 2) }
{
    let count = p.count;
    Parts {
        count: count + 1,
        month: placed(p.month, 0, count, n),
        day: placed(p.day, 1, count, n),
        hour: placed(p.hour, 2, count, n),
        minute: placed(p.minute, 3, count, n),
        second: placed(p.second, 4, count, n),
        end: p.end + 2,
    }
}

// How many parts may follow the year: MM, DD, hh, mm and ss.
const MOST: usize = 5;

// The parts after the year.
fn read_parts(s: &[u8]) -> Parts
    requires { 4 ≤ length s.now }
    ensures { PartsAt s.now result }
{
    let mut p = Parts {
        count: 0,
        month: 1,
        day: 1,
        hour: 0,
        minute: 0,
        second: 0,
        end: 4,
    };
    for part in 0..MOST {
        let Some(n) = digits::read(s, p.end, 2) else {
            return p;
        };
        p = with_next(p, n);
    }
    p
}

// Hours of two digits, and minutes of two more if they stand there.
fn read_hours(s: &[u8], at: usize) -> Option<Hours>
    requires { at ≤ length s.now }
    ensures { HoursAt s.now at result }
{
    let hours = digits::read(s, at, 2)?;
    let Some(minutes) = digits::read(s, at + 2, 2) else {
        return Some(Hours {
            hours,
            minutes: 0,
            end: at + 2,
        });
    };
    Some(Hours {
        hours,
        minutes,
        end: at + 2 + 2,
    })
}

// An offset, a sign with hours and minutes, or none.
fn read_zone(s: &[u8], at: usize) -> Zoned
    requires { at ≤ length s.now }
    ensures { ZoneAt s.now at result }
{
    let none = Zoned {
        zone: None,
        end: at,
    };
    if s.len() <= at {
        return none;
    }
    let sign = s[at];
    if (sign != b'+') & (sign != b'-') {
        return none;
    }
    let Some(written) = read_hours(s, at + 1) else {
        return none;
    };
    Zoned {
        zone: Some(Offset {
            is_behind: sign == b'-',
            hours: written.hours,
            minutes: written.minutes,
        }),
        end: written.end,
    }
}

// A fraction, where one may stand: after the seconds.
fn read_fraction_after(s: &[u8], count: usize, at: usize) -> Fraction
    requires { at ≤ length s.now }
    ensures { FractionBy (fraction_after count) s.now at result }
{
    if count < 5 {
        return Fraction {
            value: 0,
            count: 0,
            end: at,
        };
    }
    digits::read_fraction(s, at)
}

// An offset, where one may stand: after the hours or finer.
fn read_zone_after(s: &[u8], count: usize, at: usize) -> Zoned
    requires { at ≤ length s.now }
    ensures { ZoneBy (zone_after count) s.now at result }
{
    if count < 3 {
        return Zoned {
            zone: None,
            end: at,
        };
    }
    read_zone(s, at)
}

// What is written in a text, if it has the form of a timestamp.
pub fn read_form(s: &[u8]) -> Option<Written>
    ensures { FormOf s.now result }
{
    let year = digits::read(s, 0, 4)?;
    let parts = read_parts(s);
    let fraction = read_fraction_after(s, parts.count, parts.end);
    let zoned = read_zone_after(s, parts.count, fraction.end);
    if zoned.end != s.len() {
        return None;
    }
    Some(Written {
        year,
        parts,
        fraction,
        zone: zoned.zone,
    })
}
