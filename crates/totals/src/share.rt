// A desk's part put back into the table that two desks share.
ghost use Rattle.std.specs.Prelude.{◌≡◌, ◌+◌, ◌-◌, ◌*◌, ◌<◌, ◌≤◌, true, false, [], ◌∷◌, map, length, drop, slice_index};
ghost use mathlib.Core.List.{flat_map};
ghost use Rattle.rules.specs.Services.{overwrite};
ghost use Rattle.rules.specs.Totals.{empty_table};
ghost use Rattle.rules.specs.TotalNumbers.{Lent};
ghost use Rattle.rules.specs.Desks.{owned, is_desk, is_faulty, with_part, with_rows};
ghost use Rattle.rules.specs.DeskNumbers.{shared_in, shared_numbers};
ghost use Rattle.writer.specs.Placing.{placed};
ghost use Rattle.totals.specs.Tables.{table_meant, held_rows};
ghost use Rattle.totals.specs.Readings.{Sound};
ghost use Rattle.totals.specs.Shares.{held_in, owned_numbers};

use crate::part::counts_from;
use crate::{ROWS, Row, Table};

// Puts a row of a desk at a place.
fn put_row(numbers: &mut [u64; 103], k: usize, desk: u64, row: Row)
    requires fact_1 { length numbers.old ≡ 103 }
    requires fact_2 { k < 32 }
    ensures { numbers.new ≡ placed (7 + 3 * k) (desk ∷ row.currency ∷ row.total ∷ []) numbers.old }
{
    numbers[7 + 3 * k] = desk;
    numbers[8 + 3 * k] = row.currency;
    numbers[9 + 3 * k] = row.total;
}

// Puts the rows of a desk's part from the k-th on behind the first j rows. Gives how many rows there are then.
fn put_rest(numbers: &mut [u64; 103], desk: u64, t: Table, j: usize, k: usize) -> usize
    requires fact_1 { length numbers.old ≡ 103 }
    requires fact_2 { t.held ≤ 16 }
    requires fact_3 { k ≤ t.held }
    requires fact_4 { j + (t.held - k) ≤ 32 }
    ensures rows { result ≡ j + (t.held - k) }
    ensures put { numbers.new ≡ placed (7 + 3 * j) (flat_map owned_numbers (map (owned desk) (drop k (held_rows t)))) numbers.old }
{
    let mut at = j;
    for i in k..t.held {
        put_row(numbers, at, desk, t.rows[i]);
        at += 1;
    }
    at
}

// Puts the rows of a desk's part where its rows stood, and what is left of them after all. The other desk's keep their order, and move up where
// there are fewer. Gives how many rows there are then.
fn put_rows(numbers: &mut [u64; 103], desk: u64, t: Table) -> usize
    requires fact_1 { length numbers.old ≡ 103 }
    requires fact_2 { slice_index numbers.old 0 ≤ 32 }
    requires fact_3 { t.held ≤ 16 }
    requires fact_4 { length (with_rows desk (held_rows t) (held_in numbers.old)) ≤ 32 }
    ensures rows { result ≡ length (with_rows desk (held_rows t) (held_in numbers.old)) }
    ensures put { numbers.new ≡ placed 7 (flat_map owned_numbers (with_rows desk (held_rows t) (held_in numbers.old))) numbers.old }
{
    let held = numbers[0] as usize;
    let mut j = 0;
    let mut k = 0;
    for i in 0..held {
        let owner = numbers[7 + 3 * i];
        if owner != desk {
            let row = Row {
                currency: numbers[8 + 3 * i],
                total: numbers[9 + 3 * i],
            };
            put_row(numbers, j, owner, row);
            j += 1;
            continue;
        }
        if k == t.held {
            continue;
        }
        put_row(numbers, j, desk, t.rows[k]);
        j += 1;
        k += 1;
    }
    put_rest(numbers, desk, t, j, k)
}

// Puts a desk's part back: its rows, how many rows are held then, and its counts.
pub fn share(numbers: &mut [u64; 103], desk: u64, t: Table)
    requires fact_1 { Lent 103 numbers.old }
    requires fact_2 { is_faulty (shared_in numbers.old) ≡ false }
    requires fact_3 { is_desk desk ≡ true }
    requires fact_4 { Sound t }
    ensures { numbers.new ≡ overwrite numbers.old (shared_numbers (with_part desk (table_meant t) (shared_in numbers.old))) }
{
    let held = put_rows(numbers, desk, t);
    let from = counts_from(desk);
    numbers[0] = held as u64;
    numbers[from] = t.added;
    numbers[from + 1] = t.null;
    numbers[from + 2] = t.refused;
}

// Clears a desk's part: it has no rows, and nothing is counted.
pub fn clear(numbers: &mut [u64; 103], desk: u64)
    requires fact_1 { Lent 103 numbers.old }
    requires fact_2 { is_faulty (shared_in numbers.old) ≡ false }
    requires fact_3 { is_desk desk ≡ true }
    ensures { numbers.new ≡ overwrite numbers.old (shared_numbers (with_part desk empty_table (shared_in numbers.old))) }
{
    let t = Table {
        rows: [Row {
            currency: 0,
            total: 0,
        }; ROWS],
        held: 0,
        added: 0,
        null: 0,
        refused: 0,
    };
    share(numbers, desk, t);
}
