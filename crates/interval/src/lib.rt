// Sets of times: bounds, intervals, sets as stretches, and union, intersection and difference.
#![tactic(auto)]

mod edge;
mod join;
mod list;
mod merge;
mod set;

pub use join::with_interval;
pub use list::write_list;
pub use set::{all, apply, combine, contains, empty, is_in, same, single};

// A bound of an interval. A tick (the page's term) is counted from fourteen hours before 0001-01-01 00:00, so that none is negative.
// The first variant stays `Unbounded`: the logic takes it for what is past an array's end.
#[derive(Clone, Copy, PartialEq, Eq)]
pub enum Bound {
    Unbounded,
    Open(u64),
    Closed(u64),
}

// The places from low to high; crossed bounds mean none.
#[derive(Clone, Copy, PartialEq, Eq)]
pub struct Interval {
    pub low: Bound,
    pub high: Bound,
}

// A set of places as its stretches (the page's term: runs of neighbouring places that can't be made longer), from low to high:
// the first `count` of the items.
#[derive(Clone, Copy)]
pub struct Stretches {
    pub items: [Interval; 32],
    pub count: usize,
}

// What is done with two sets, place by place.
#[derive(Clone, Copy)]
pub enum Op {
    Union,
    Intersection,
    Difference,
}
