// The names of a tag's attributes: which of them may be the same, told by numbers that are made of their bytes.
ghost use Rattle.std.specs.Prelude.{◌≡◌, List, ℕ, ◌≤◌, ◌<◌, length};
ghost use Rattle.markup.specs.Attributes.{ToldAt};
ghost use Rattle.markup.specs.Marks.{slot_of, mixed, mix_of, mark_of, next_place, SpotFor, is_among, NamesFrom};

use crate::tag::next_attribute;

// The slot of a name, one of 64, by its first byte, its last byte and its length. The names that the types have are in slots of their own.
fn slot(name: &[u8]) -> usize
    requires { 1 ≤ length name.now }
    ensures { (result ≡ slot_of name.now) × (result < 64) }
{
    let last = name.len() - 1;
    (usize::from(name[0]) + 3 * usize::from(name[last]) + 2 * (last % 64)) % 64
}

// The end of the attributes that stand from a position on, each name once, as far as slots tell, which may tell nothing: names in different
// slots are different, so where each is the first in its slot none need be compared.
pub fn read_by_slots(s: &[u8], at: usize) -> Option<Option<usize>>
    requires { at ≤ length s.now }
    ensures { ToldAt s.now at result }
{
    let mut taken: [bool; 64] = [false; 64];
    let mut i = at;
    while let Some(a) = next_attribute(s, i) {
        let k = slot(&s[a.name..a.name_end]);
        if taken[k] {
            return None;
        }
        taken[k] = true;
        i = a.end;
    }
    Some(Some(i))
}

// A number under 1,048,576 made of such a number and a byte.
fn mix_byte(h: usize, c: u8) -> usize
    requires { h < 1_048_576 }
    ensures { (result ≡ mixed h c) × (result < 1_048_576) }
{
    (h + usize::from(c)) * 40_503 % 1_048_576
}

// A number under 1,048,576 made of all bytes of a name.
fn mix(name: &[u8]) -> usize
    ensures { (result ≡ mix_of 0 name.now) × (result < 1_048_576) }
{
    let mut h = 0;
    for c in name {
        h = mix_byte(h, *c);
    }
    h
}

// The mark of a name, from 1 to 255, by the number made of its bytes.
fn mark(h: usize) -> u8
    ensures { result ≡ mark_of h }
{
    (h % 255 + 1) as u8
}

// The place after another in a table; after the last comes the first.
fn next_place(i: usize) -> usize
    requires { i < 3_072 }
    ensures { (result ≡ next_place i) × (result < 3_072) }
{
    (i + 1) % 3_072
}

// What a table of marks tells of a name: that it is new, and a free place for its mark; that its mark is there; or that there is no place
// for it.
#[derive(Clone, Copy)]
pub enum Spot {
    Free(usize),
    Marked,
    Full,
}

// Looks for the mark of a name in a table in which 0 is a free place: from the name's first place on, up to one that is free.
fn find_spot(h: usize, table: &[u8; 3072]) -> Spot
    requires { h < 1_048_576 }
    ensures { SpotFor h table.now result }
{
    let m = mark(h);
    let mut i = h * 3 / 1_024;
    for _tries in 0..3_072_usize {
        if table[i] == 0 {
            return Spot::Free(i);
        }
        if table[i] == m {
            return Spot::Marked;
        }
        i = next_place(i);
    }
    Spot::Full
}

// Whether a name is among those of the attributes from a position up to another.
fn is_before(s: &[u8], at: usize, until: usize, name: &[u8]) -> bool
    requires { at ≤ length s.now }
    ensures { (k : List (List ℕ)) → NamesFrom s.now at until k → result ≡ is_among name.now k }
{
    let mut i = at;
    while i < until {
        let Some(a) = next_attribute(s, i) else {
            return false;
        };
        if text::is_same(name, &s[a.name..a.name_end]) {
            return true;
        }
        i = a.end;
    }
    false
}

// The end of the attributes that stand from a position on, each name once, as far as a table of marks has places, which are more than
// there are names in 16,384 bytes; past that it tells nothing. A name whose mark is there already is looked for among those before it.
pub fn read_by_table(s: &[u8], at: usize) -> Option<Option<usize>>
    requires { at ≤ length s.now }
    ensures { ToldAt s.now at result }
{
    let mut table: [u8; 3072] = [0; 3072];
    let mut i = at;
    while let Some(a) = next_attribute(s, i) {
        let h = mix(&s[a.name..a.name_end]);
        match find_spot(h, &table) {
            Spot::Free(k) => {
                table[k] = mark(h);
            }
            Spot::Marked => {
                if is_before(s, at, i, &s[a.name..a.name_end]) {
                    return Some(None);
                }
            }
            Spot::Full => {
                return None;
            }
        }
        i = a.end;
    }
    Some(Some(i))
}
