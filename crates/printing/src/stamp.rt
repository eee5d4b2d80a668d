// A tick as a full timestamp, with four digits of the fraction and `+0000`.
ghost use Rattle.std.specs.Prelude.{◌≡◌, ◌+◌, ◌<◌, ◌≤◌, pos, length};
ghost use Rattle.rules.specs.Dates.{years_end, date_text, clock_text, timestamp_text};
ghost use Rattle.writer.specs.Placing.{Put};

use crate::date;
use timestamp::tick::Tick;
use writer::{put, put_pair};

// Writes the date of a day as YYYYMMDD.
fn put_date(out: &mut [u8], at: usize, days: u64) -> usize
    requires fact_1 { days < 3_652_059 }
    requires fact_2 { at + 8 ≤ length out.old }
    ensures value { result ≡ at + 8 }
    ensures put { Put at (date_text days) out.old result out.new }
{
    let d = date::date_of(days);
    let a = put_pair(out, at, d.year / 100);
    let b = put_pair(out, a, d.year % 100);
    let c = put_pair(out, b, d.month);
    put_pair(out, c, d.day)
}

// Writes the ticks since midnight as hhmmss.ffff.
fn put_clock(out: &mut [u8], at: usize, ticks: u64) -> usize
    requires fact_1 { ticks < 864_000_000 }
    requires fact_2 { at + 11 ≤ length out.old }
    ensures value { result ≡ at + 11 }
    ensures put { Put at (clock_text ticks) out.old result out.new }
{
    let a = put_pair(out, at, ticks / Tick::HOUR.0);
    let b = put_pair(out, a, ticks / Tick::MINUTE.0 % 60);
    let c = put_pair(out, b, ticks / Tick::SECOND.0 % 60);
    let d = put(out, c, b".");
    let e = put_pair(out, d, ticks % Tick::SECOND.0 / 100);
    put_pair(out, e, ticks % 100)
}

// Writes a tick of years 0001 to 9999.
pub fn put_timestamp(out: &mut [u8], at: usize, tick: u64) -> usize
    requires fact_1 { tick < years_end }
    requires fact_2 { at + 24 ≤ length out.old }
    ensures value { result ≡ at + 24 }
    ensures put { Put at (timestamp_text (pos tick)) out.old result out.new }
{
    let a = put_date(out, at, tick / Tick::DAY.0);
    let b = put_clock(out, a, tick % Tick::DAY.0);
    put(out, b, b"+0000")
}
