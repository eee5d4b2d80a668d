// The attribute names that the type lines have, and nullFlavor and xsi:type, by number.
ghost use Rattle.std.specs.Prelude.{◌≡◌, cond, List, ◌∷◌, ℕ, ◌≤◌, length};
ghost use Rattle.rules.specs.Basics.{same};
ghost use Rattle.element.specs.Names.{number_of};
ghost use Rattle.element.specs.Plain.{PlainIf, PlainAt};

use text::is_same;
use text::words::stands_at;

pub const VALUE: usize = 0;

pub const NULL_FLAVOR: usize = 1;

pub const XSI_TYPE: usize = 2;

pub const LOW_CLOSED: usize = 3;

pub const HIGH_CLOSED: usize = 4;

pub const CURRENCY: usize = 5;

pub const ROOT: usize = 6;

pub const EXTENSION: usize = 7;

pub const CODE: usize = 8;

pub const CODE_SYSTEM: usize = 9;

pub const CODE_SYSTEM_NAME: usize = 10;

pub const CODE_SYSTEM_VERSION: usize = 11;

pub const PART_TYPE: usize = 12;

pub const QUALIFIER: usize = 13;

// How many there are; the number of every other name.
pub const KNOWN: usize = 14;

// A number, if a name is a given one, else another.
fn number_if(name: &[u8], given: &[u8], number: usize, other: usize) -> usize
    ensures { result ≡ cond (same name.now given.now) number other }
{
    if is_same(name, given) {
        return number;
    }
    other
}

// The number of a name that begins with c.
fn number_of_c(name: &[u8]) -> usize
    ensures { (t : List ℕ) → name.now ≡ 99 ∷ t → result ≡ number_of name.now }
{
    let version = number_if(name, b"codeSystemVersion", CODE_SYSTEM_VERSION, KNOWN);
    let named = number_if(name, b"codeSystemName", CODE_SYSTEM_NAME, version);
    let system = number_if(name, b"codeSystem", CODE_SYSTEM, named);
    let code = number_if(name, b"code", CODE, system);
    number_if(name, b"currency", CURRENCY, code)
}

// The number of a name: its first byte leaves at most one known name, or those that begin with c.
pub fn number_of(name: &[u8]) -> usize
    ensures { result ≡ number_of name.now }
{
    if name.len() == 0 {
        return KNOWN;
    }
    match name[0] {
        b'v' => number_if(name, b"value", VALUE, KNOWN),
        b'n' => number_if(name, b"nullFlavor", NULL_FLAVOR, KNOWN),
        b'x' => number_if(name, b"xsi:type", XSI_TYPE, KNOWN),
        b'l' => number_if(name, b"lowClosed", LOW_CLOSED, KNOWN),
        b'h' => number_if(name, b"highClosed", HIGH_CLOSED, KNOWN),
        b'c' => number_of_c(name),
        b'r' => number_if(name, b"root", ROOT, KNOWN),
        b'e' => number_if(name, b"extension", EXTENSION, KNOWN),
        b't' => number_if(name, b"type", PART_TYPE, KNOWN),
        b'q' => number_if(name, b"qualifier", QUALIFIER, KNOWN),
        _ => KNOWN,
    }
}

// A known name with `="` right after it: its number and how long it is.
#[derive(Clone, Copy)]
pub struct Plain {
    pub number: usize,
    pub size: usize,
}

// A number and a size, if a text stands at a position.
fn plain_if(s: &[u8], at: usize, text: &[u8], number: usize, size: usize) -> Option<Plain>
    requires { at ≤ length s.now }
    ensures { PlainIf s.now at text.now number size result }
{
    stands_at(s, at, text).then_some(Plain { number, size })
}

// A known name that begins with c and stands at a position with `="` right after it. Two that few records have are not looked for.
fn plain_c(s: &[u8], at: usize) -> Option<Plain>
    requires { at ≤ length s.now }
    ensures { PlainAt s.now at result }
{
    if let Some(code) = plain_if(s, at, b"code=\"", CODE, 4) {
        return Some(code);
    }
    if let Some(system) = plain_if(s, at, b"codeSystem=\"", CODE_SYSTEM, 10) {
        return Some(system);
    }
    plain_if(s, at, b"currency=\"", CURRENCY, 8)
}

// A known name that stands at a position with `="` right after it, as most are written. Not all are looked for.
pub fn plain_at(s: &[u8], at: usize) -> Option<Plain>
    requires { at ≤ length s.now }
    ensures { PlainAt s.now at result }
{
    if at == s.len() {
        return None;
    }
    match s[at] {
        b'v' => plain_if(s, at, b"value=\"", VALUE, 5),
        b'n' => plain_if(s, at, b"nullFlavor=\"", NULL_FLAVOR, 10),
        b'x' => plain_if(s, at, b"xsi:type=\"", XSI_TYPE, 8),
        b'l' => plain_if(s, at, b"lowClosed=\"", LOW_CLOSED, 9),
        b'h' => plain_if(s, at, b"highClosed=\"", HIGH_CLOSED, 10),
        b'c' => plain_c(s, at),
        b'r' => plain_if(s, at, b"root=\"", ROOT, 4),
        b'e' => plain_if(s, at, b"extension=\"", EXTENSION, 9),
        b't' => plain_if(s, at, b"type=\"", PART_TYPE, 4),
        b'q' => plain_if(s, at, b"qualifier=\"", QUALIFIER, 9),
        _ => None,
    }
}
