// A stretch of a list by its bounds, from the numbers that are lent.
ghost use Rattle.std.specs.Prelude.{◌≡◌, ◌<◌};
ghost use Rattle.printing.specs.Terms.{bound_of, stretch_of, bound_meant, stretch_meant};

use lent::Row;

// A bound of a stretch; its tick as 64 bits in two's complement.
#[derive(Clone, Copy)]
pub enum Bound {
    Unbounded,
    Open(u64),
    Closed(u64),
}

// A stretch: its low and its high.
#[derive(Clone, Copy)]
pub struct Stretch {
    pub low: Bound,
    pub high: Bound,
}

// The bound of a kind and a tick.
fn bound_from(kind: u64, tick: u64) -> Bound
    requires { kind < 3 }
    ensures { bound_meant result ≡ bound_of kind tick }
{
    match kind {
        0 => Bound::Unbounded,
        1 => Bound::Open(tick),
        _ => Bound::Closed(tick),
    }
}

// The stretch of four numbers.
pub fn stretch_from(row: Row) -> Stretch
    requires fact_1 { row.low_kind < 3 }
    requires fact_2 { row.high_kind < 3 }
    ensures { stretch_meant result ≡ stretch_of row }
{
    Stretch {
        low: bound_from(row.low_kind, row.low_tick),
        high: bound_from(row.high_kind, row.high_tick),
    }
}
