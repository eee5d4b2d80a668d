// The report of a table.
ghost use Rattle.std.specs.Prelude.{◌≡◌, ◌≤◌, length};
ghost use mathlib.Core.List.{flat_map};
ghost use Rattle.rules.specs.Services.{overwrite};
ghost use Rattle.writer.specs.Placing.{placed};
ghost use Rattle.totals.specs.Tables.{held_rows, numbers_of, report_of};

use crate::Table;

// Writes the rows of a table after its counts.
fn put_rows(t: Table, out: &mut [u64])
    requires fact_1 { t.held ≤ 16 }
    requires fact_2 { 35 ≤ length out.old }
    ensures { out.new ≡ placed 3 (flat_map numbers_of (held_rows t)) out.old }
{
    for k in 0..t.held {
        let row = t.rows[k];
        out[3 + 2 * k] = row.currency;
        out[4 + 2 * k] = row.total;
    }
}

// Writes the counts and the rows of a table.
fn put(t: Table, out: &mut [u64])
    requires fact_1 { t.held ≤ 16 }
    requires fact_2 { 35 ≤ length out.old }
    ensures { out.new ≡ overwrite out.old (report_of t) }
{
    out[0] = t.added;
    out[1] = t.null;
    out[2] = t.refused;
    put_rows(t, out);
}

// The report of a table: its counts and rows, and then what was there before.
pub fn report(t: Table, before: [u64; 35]) -> [u64; 35]
    requires { t.held ≤ 16 }
    ensures { result ≡ overwrite before (report_of t) }
{
    let mut out = before;
    put(t, &mut out[..]);
    out
}
