// What a record does to a table that is neither damaged nor full.
ghost use Rattle.std.specs.Prelude.{◌≡◌, ◌+◌, ◌<◌, ◌≤◌, Some, Err, if◌then◌else◌, nat_lt, slice_index_or};
ghost use Rattle.rules.specs.Refusal.{answered};
ghost use Rattle.rules.specs.Services.{packed};
ghost use Rattle.rules.specs.TotalNumbers.{entry_number};
ghost use Rattle.totals.specs.Readings.{Readable, reading_meant, IsMoney, entry_meant, Usable, with_refused, with_row, PostedAs};
ghost use Rattle.totals.specs.Tables.{blank};

use crate::damage::{is_in_range, place_of};
use crate::entry::Money;
use crate::{ROWS, Row, Table};
use refusal::Refusal;

// A table after a record, and the answer to it: the amount that was added, none for a null, or a refusal.
#[derive(Clone, Copy)]
pub struct Posted {
    pub table: Table,
    pub answer: Result<Option<Money>, Refusal>,
}

// A record that is refused: it is counted, and nothing else changes.
fn refuse(t: Table, r: Refusal) -> Posted
    requires { Usable t }
    ensures { (result.table ≡ with_refused t) × (result.answer ≡ Err r) }
{
    let mut u = t;
    u.refused = u.refused + 1;
    Posted {
        table: u,
        answer: Err(r),
    }
}

// The total at a place: that of its row, or none yet past the rows held.
fn total_at(t: Table, at: usize) -> u64
    requires { t.held ≤ 16 }
    ensures { result ≡ (if nat_lt at t.held then (slice_index_or t.rows at blank).total else 0) }
{
    if at < t.held { t.rows[at].total } else { 0 }
}

// How many rows are held when there is one at a place, which is one of them or the next.
fn held_with(t: Table, at: usize) -> usize
    requires { t.held ≤ 16 }
    ensures { result ≡ (if nat_lt at t.held then t.held else t.held + 1) }
{
    if at < t.held { t.held } else { t.held + 1 }
}

// A row put at a place, for a record that is added.
fn enter(t: Table, at: usize, row: Row) -> Table
    requires fact_1 { Usable t }
    requires fact_2 { at < 16 }
    ensures { result ≡ with_row t at row }
{
    let mut u = t;
    u.rows[at] = row;
    u.held = held_with(t, at);
    u.added = t.added + 1;
    u
}

// An amount of a currency, added to the total that it has or begins.
fn add(t: Table, money: Money) -> Posted
    requires fact_1 { Usable t }
    requires fact_2 { IsMoney (Some money) }
    ensures { PostedAs t (answered (entry_meant (Some money))) result }
{
    let at = place_of(t, t.held, money.currency);
    if at == ROWS {
        return refuse(t, Refusal::NoRow);
    }
    let total = std::num::wrapping_add_u64(total_at(t, at), money.amount);
    if !is_in_range(total) {
        return refuse(t, Refusal::Total);
    }
    let currency = money.currency;
    let row = Row { currency, total };
    Posted {
        table: enter(t, at, row),
        answer: Ok(Some(money)),
    }
}

// What was read, posted.
pub fn post(t: Table, reading: Result<Option<Money>, Refusal>) -> Posted
    requires fact_1 { Usable t }
    requires fact_2 { Readable reading }
    ensures { PostedAs t (reading_meant reading) result }
{
    match reading {
        Ok(None) => {
            let mut u = t;
            u.null = u.null + 1;
            Posted {
                table: u,
                answer: Ok(None),
            }
        }
        Ok(Some(money)) => add(t, money),
        Err(r) => refuse(t, r),
    }
}

// The packed answer on a record that is added, or null, or refused.
pub fn posted_number(answer: Result<Option<Money>, Refusal>) -> u64
    ensures { result ≡ packed entry_number (reading_meant answer) }
{
    match answer {
        Ok(Some(_)) => 256,
        Ok(None) => 512,
        Err(r) => refusal::number(r),
    }
}
