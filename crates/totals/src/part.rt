// A desk's part of the table that two desks share, taken from its numbers.
ghost use Rattle.std.specs.Prelude.{◌≡◌, ◌≤◌, if◌then◌else◌, nat_eq, slice_index};
ghost use Rattle.rules.specs.TotalNumbers.{Lent};
ghost use Rattle.rules.specs.Desks.{is_desk, part_of, is_faulty};
ghost use Rattle.rules.specs.DeskNumbers.{shared_in};
ghost use Rattle.totals.specs.Tables.{Holds};
ghost use Rattle.totals.specs.Shares.{has_stray};

use crate::damage::is_damaged;
use crate::{ALL_ROWS, ROWS, Row, Table};

// What the type of lent numbers says of them.
pub fn lent(numbers: [u64; 103])
    ensures { Lent 103 numbers }
{}

// Whether a number is that of a desk.
pub fn is_desk(desk: u64) -> bool
    ensures { result ≡ is_desk desk }
{
    (desk == 1) | (desk == 2)
}

// Where the counts of a desk stand.
pub fn counts_from(desk: u64) -> usize
    ensures { result ≡ (if nat_eq desk 1 then 1 else 4) }
{
    if desk == 1 { 1 } else { 4 }
}

// The part of a desk; one of more rows than there is room for has 17.
pub fn part(numbers: &[u64; 103], desk: u64) -> Table
    requires fact_1 { Lent 103 numbers.now }
    requires fact_2 { slice_index numbers.now 0 ≤ 32 }
    ensures { Holds (part_of desk (shared_in numbers.now)) result }
{
    let from = counts_from(desk);
    let mut t = Table {
        rows: [Row {
            currency: 0,
            total: 0,
        }; ROWS],
        held: 0,
        added: numbers[from],
        null: numbers[from + 1],
        refused: numbers[from + 2],
    };
    let held = numbers[0] as usize;
    for k in 0..held {
        if numbers[7 + 3 * k] != desk {
            continue;
        }
        if t.held == ROWS {
            t.held = ROWS + 1;
            return t;
        }
        t.rows[t.held] = Row {
            currency: numbers[8 + 3 * k],
            total: numbers[9 + 3 * k],
        };
        t.held += 1;
    }
    t
}

// Whether a row is of neither desk.
fn has_stray(numbers: &[u64; 103]) -> bool
    requires { slice_index numbers.now 0 ≤ 32 }
    ensures { result ≡ has_stray numbers.now }
{
    let held = numbers[0] as usize;
    for k in 0..held {
        if !is_desk(numbers[7 + 3 * k]) {
            return true;
        }
    }
    false
}

// Whether the table is damaged: over 32 rows, a fault in a desk's part, or a row of neither.
pub fn is_faulty(numbers: &[u64; 103]) -> bool
    requires { Lent 103 numbers.now }
    ensures { result ≡ is_faulty (shared_in numbers.now) }
{
    if numbers[0] > ALL_ROWS {
        return true;
    }
    is_damaged(part(numbers, 1)) | is_damaged(part(numbers, 2)) | has_stray(numbers)
}
