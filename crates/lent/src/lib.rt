// A lent list of stretches, read and judged: four numbers a stretch, eight bytes a number.
#![tactic(auto)]

ghost use Rattle.std.specs.Prelude.{◌≡◌, ◌+◌, ◌*◌, ◌<◌, ◌≤◌, not, length, int_lt};
ghost use Rattle.rules.specs.LentLists.{signed, is_improper_list};
ghost use Rattle.lent.specs.Rows.{number_at, row_at, row_of, is_bound, is_in_order, is_faulty, is_clash};

// The four numbers of a stretch, each as its 64 bits in two's complement.
#[derive(Clone, Copy)]
pub struct Row {
    pub low_kind: u64,
    pub low_tick: u64,
    pub high_kind: u64,
    pub high_tick: u64,
}

// The number at a position, lowest byte first.
fn read_number(list: &[u8], at: usize) -> u64
    requires { at + 8 ≤ length list.now }
    ensures { result ≡ number_at list.now at }
{
    let mut bytes = [0; 8];
    bytes.copy_from_slice(&list[at..at + 8]);
    u64::from_le_bytes(bytes)
}

// The numbers of the k-th stretch, counted from 0.
pub fn read_row(list: &[u8], k: usize) -> Row
    requires { 32 * k + 32 ≤ length list.now }
    ensures { result ≡ row_at list.now k }
{
    let at = 32 * k;
    Row {
        low_kind: read_number(list, at),
        low_tick: read_number(list, at + 8),
        high_kind: read_number(list, at + 16),
        high_tick: read_number(list, at + 24),
    }
}

// Half of the numbers that 64 bits hold: 2^63.
const HALF: u64 = 9223372036854775808;

// Whether one number is less than another, both read as signed.
fn is_less(a: u64, b: u64) -> bool
    ensures { result ≡ int_lt (signed a) (signed b) }
{
    std::num::wrapping_add_u64(a, HALF) < std::num::wrapping_add_u64(b, HALF)
}

// Whether kind and tick are a bound's: a kind of 0, 1 or 2, and tick 0 where it is unbounded.
fn is_bound(kind: u64, tick: u64) -> bool
    ensures { result ≡ is_bound (signed kind) (signed tick) }
{
    (kind < 3) & ((kind != 0) | (tick == 0))
}

// Whether one tick is before another; the same tick will do where `equal` says so.
fn in_order(t: u64, u: u64, equal: bool) -> bool
    ensures { result ≡ is_in_order (signed t) (signed u) equal }
{
    is_less(t, u) | (equal & (t == u))
}

// Whether four numbers are a stretch: good kinds, tick 0 at unbounded ends, and some place between its bounds.
pub fn is_stretch(row: Row) -> bool
    ensures { result ≡ not (is_faulty (row_of row)) }
{
    let bounds = is_bound(row.low_kind, row.low_tick) & is_bound(row.high_kind, row.high_tick);
    let unbounded = (row.low_kind == 0) | (row.high_kind == 0);
    let closed = (row.low_kind == 2) & (row.high_kind == 2);
    bounds & (unbounded | in_order(row.low_tick, row.high_tick, closed))
}

// Whether a place lies between a stretch and the one after it.
pub fn are_parted(row: Row, next: Row) -> bool
    requires fact_1 { row.high_kind < 3 }
    requires fact_2 { next.low_kind < 3 }
    ensures { result ≡ not (is_clash (row_of row) (row_of next)) }
{
    let bounded = (row.high_kind != 0) & (next.low_kind != 0);
    let open = (row.high_kind == 1) & (next.low_kind == 1);
    bounded & in_order(row.high_tick, next.low_tick, open)
}

// Whether a list is proper: of at most 32 stretches, 32 bytes each, and so on.
pub fn is_proper(list: &[u8]) -> bool
    ensures { result ≡ not (is_improper_list list.now) }
{
    if list.len() == 0 {
        return true;
    }
    if list.len() % 32 != 0 {
        return false;
    }
    if 1024 < list.len() {
        return false;
    }
    let n = list.len() / 32;
    let mut row = read_row(list, 0);
    if !is_stretch(row) {
        return false;
    }
    for k in 1..n {
        let next = read_row(list, k);
        if !is_stretch(next) {
            return false;
        }
        if !are_parted(row, next) {
            return false;
        }
        row = next;
    }
    true
}
