// Daily totals by currency: a desk's part of the table as a value, what a record does to it, and its report. Lent numbers that two desks share are
// taken into a part and put back at the edge, by `part` and `share`.
#![tactic(auto)]

pub mod damage;
pub mod entry;
pub mod part;
pub mod post;
pub mod report;
pub mod share;

// How many currencies a desk holds at most, and how many rows both.
pub const ROWS: usize = 16;

pub const ALL_ROWS: u64 = 32;

// A row: the number of its currency, and its total in ten-thousandths, in two's complement.
#[derive(Clone, Copy)]
pub struct Row {
    pub currency: u64,
    pub total: u64,
}

// A desk's part: how many rows are held, the first of these; 17 stands for more than there is room for. Counts of records added, null and refused.
#[derive(Clone, Copy)]
pub struct Table {
    pub rows: [Row; ROWS],
    pub held: usize,
    pub added: u64,
    pub null: u64,
    pub refused: u64,
}
