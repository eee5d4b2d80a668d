// Ticks (the page's term): ten-thousandths of a second, made from dates and clocks.
ghost use Rattle.std.specs.Prelude.{◌≡◌, ◌+◌, ◌*◌, ◌≤◌, ◌<◌};
ghost use Rattle.timestamp.specs.Moments.{InRange};
ghost use Rattle.rules.specs.Calendar.{days_before, second as second_ticks, minute as minute_ticks, hour as hour_ticks, day as day_ticks};

use crate::calendar;

// A count of ticks.
#[derive(Clone, Copy)]
pub struct Tick(pub u64);

impl Tick {
    pub const SECOND: Tick = Tick(10_000);

    pub const MINUTE: Tick = Tick(600_000);

    pub const HOUR: Tick = Tick(36_000_000);

    pub const DAY: Tick = Tick(864_000_000);

    // The page's tick 0, 0001-01-01 00:00 at offset zero, as moments and bounds are counted: from fourteen hours before it.
    pub const ORIGIN: Tick = Tick(504_000_000);

    // The ticks from 0001-01-01 up to a date.
    pub fn of_date(year: u64, month: u64, day: u64) -> Tick
        requires { InRange year month day }
        ensures { (result.0 ≡ days_before year month day * day_ticks) × (result.0 ≤ 3_652_089 * day_ticks) }
    {
        Tick(calendar::days_before(year, month, day) * Tick::DAY.0)
    }

    // The ticks from midnight up to a time of the day.
    pub fn of_clock(hour: u64, minute: u64, second: u64, fraction: u64) -> Tick
        requires { (hour ≤ 23) × ((minute ≤ 59) × ((second ≤ 59) × (fraction < 10_000))) }
        ensures { (result.0 ≡ hour * hour_ticks + minute * minute_ticks + second * second_ticks + fraction) × (result.0 < day_ticks) }
    {
        Tick(hour * Tick::HOUR.0 + minute * Tick::MINUTE.0 + second * Tick::SECOND.0 + fraction)
    }
}
