// Whether a table is damaged, or full.
ghost use Rattle.std.specs.Prelude.{◌≡◌, ◌%◌, ◌<◌, ◌≤◌, ◌||◌, take, ◌==◌, nat_lt};
ghost use Rattle.rules.specs.Basics.{is_from};
ghost use Rattle.rules.specs.Forms.{is_currency};
ghost use Rattle.rules.specs.Totals.{counted, is_in_range, is_damaged};
ghost use Rattle.rules.specs.TotalNumbers.{currency_in, total_in};
ghost use Rattle.totals.specs.Tables.{counts_meant, table_meant, place_of, is_bad};

use crate::{ROWS, Row, Table};

// The most that a total may be, and the least, in two's complement.
const MOST: u64 = 9_000_000_000_000_000_000;

const LEAST: u64 = 9_446_744_073_709_551_616;

// How many records are counted at most.
const MOST_COUNTED: u64 = 1_000_000;

// Whether a byte of a number is a capital A-Z.
fn is_capital(n: u64) -> bool
    ensures { result ≡ is_from 65 90 (n % 256) }
{
    let c = n % 256;
    (65 <= c) & (c <= 90)
}

// Whether a number is that of a currency: three capitals in its lowest bytes, and no more bytes.
fn is_currency(n: u64) -> bool
    ensures { result ≡ is_currency (currency_in n) }
{
    if 0xFF_FFFF < n {
        return false;
    }
    is_capital(n) & is_capital(n / 256) & is_capital(n / 65_536)
}

// Whether a total is in range.
pub fn is_in_range(total: u64) -> bool
    ensures { result ≡ is_in_range (total_in total) }
{
    (total <= MOST) | (LEAST <= total)
}

// The first of the first n rows that is of a currency; n if none is.
pub fn place_of(t: Table, n: usize, currency: u64) -> usize
    requires { n ≤ 16 }
    ensures { result ≡ place_of currency (take n t.rows) }
{
    for k in 0..n {
        if t.rows[k].currency == currency {
            return k;
        }
    }
    n
}

// Whether the counts come to more than may be counted.
fn is_over_counted(t: Table) -> bool
    ensures { result ≡ nat_lt 1_000_000 (counted (counts_meant t)) }
{
    if (MOST_COUNTED < t.added) | (MOST_COUNTED < t.null) | (MOST_COUNTED < t.refused) {
        return true;
    }
    MOST_COUNTED < t.added + t.null + t.refused
}

// Whether a row is of no currency, out of range, or of a currency that one of the k rows before it has.
fn is_bad(t: Table, k: usize) -> bool
    requires { k < 16 }
    ensures { result ≡ is_bad t.rows k }
{
    let row = t.rows[k];
    if is_currency(row.currency) & is_in_range(row.total) {
        return place_of(t, k, row.currency) < k;
    }
    true
}

// Whether a table is damaged.
pub fn is_damaged(t: Table) -> bool
    ensures { result ≡ (nat_lt 16 t.held || is_damaged (table_meant t)) }
{
    if (ROWS < t.held) | is_over_counted(t) {
        return true;
    }
    for k in 0..t.held {
        if is_bad(t, k) {
            return true;
        }
    }
    false
}

// Whether as many records are counted as may be.
pub fn is_full(t: Table) -> bool
    requires { counted (counts_meant t) ≤ 1_000_000 }
    ensures { result ≡ (counted (counts_meant t) == 1_000_000) }
{
    t.added + t.null + t.refused == MOST_COUNTED
}
