// The invariants of each kind, whose breach is RULE, by the tag.
ghost use Rattle.std.specs.Prelude.{◌≡◌, ◌&&◌, List, ℕ, ◌≤◌, length};
ghost use Rattle.rules.specs.Basics.{bytes, exactly_one};
ghost use Rattle.rules.specs.Markup.{Attribute, Nodes, lookup};
ghost use Rattle.rules.specs.Invariants.{Side as RulesSide, is_null, has_children, has_qualifier, is_closed, breaks_flag, is_crossed, breaks_side, breaks_interval, breaks_code, breaks_part};
ghost use Rattle.rules.specs.Types.{IVL_TS, line_of};
ghost use Rattle.element.specs.Tags.{Place, Tells, TagIn};
ghost use Rattle.datatype.specs.Meaning.{kind_meant};
ghost use Rattle.datatype.specs.Bounds.{side_meant, endpoint_meant};
ghost use Rattle.datatype.specs.declared.bounds.Side.TheVariants.{Low, High};
ghost use Rattle.datatype.specs.Said.{said_meant, said_named, BoundsSaid, endpoint_said};

use datatype::bounds::{Endpoint, Side, is_pushed};
use datatype::kind::Kind;
use datatype::places::{has_some_text, has_text};
use datatype::said::{Said, endpoint, is_wrong};
use element::name::{
    CODE, CODE_SYSTEM, CODE_SYSTEM_NAME, CODE_SYSTEM_VERSION, CURRENCY, HIGH_CLOSED, LOW_CLOSED,
    NULL_FLAVOR, QUALIFIER, ROOT, VALUE,
};
use element::tag::{Tag, has};
use form::name::has_word;

// Whether one of two is so, and not both.
fn exactly_one(a: bool, b: bool) -> bool
    ensures { result ≡ exactly_one a b }
{
    a != b
}

// A valued bound has no flag, or an unbounded one has flag `true`, by the place of the flag.
fn breaks_flag(s: &[u8], flag: usize, endpoint: Endpoint) -> bool
    requires { flag ≤ length s.now }
    ensures { (side : RulesSide) (l : List Attribute) → Place s.now (lookup side.flag l) flag → result ≡ breaks_flag side l (endpoint_meant endpoint) }
{
    match endpoint {
        Endpoint::Valued(_) => flag == 0,
        Endpoint::Infinite => has_text(s, flag, b"true"),
        Endpoint::Unknown => false,
    }
}

// A side of IVL_TS, by the place of its flag and what its child says.
fn breaks_side(s: &[u8], flag: usize, side: Side, said: Said) -> bool
    requires { flag ≤ length s.now }
    ensures { (shift : ℕ) (l : List Attribute) (kids : Nodes) → Place s.now (lookup (side_meant side).flag l) flag → said_meant said ≡ said_named shift (side_meant side).child kids → result ≡ breaks_side (side_meant side) shift l kids }
{
    let end = endpoint(said, side);
    breaks_flag(s, flag, end) | is_wrong(said, side)
}

// Low's tick is after the last tick taken in by a closed coarse high, or after the high's tick otherwise, by the place of high's flag. That is
// read only where low is after high's start, or not before the next unit's.
fn is_crossed(s: &[u8], flag: usize, low: Said, high: Said) -> bool
    requires { flag ≤ length s.now }
    ensures { (l : List Attribute) → Place s.now (lookup (bytes "highClosed") l) flag → result ≡ is_crossed (is_closed (side_meant High) l) (endpoint_said Low (said_meant low)) (endpoint_said High (said_meant high)) }
{
    let Said::Valued(l) = low else {
        return false;
    };
    let Said::Valued(h) = high else {
        return false;
    };
    if (l.start <= h.start) & (l.start < h.next) {
        return false;
    }
    if is_pushed(h, Side::High, has_text(s, flag, b"true")) {
        return h.next <= l.start;
    }
    h.start < l.start
}

// IVL_TS, by the places of its flags, left and right, and what its children say.
fn breaks_interval(s: &[u8], left: usize, right: usize, low: Said, high: Said) -> bool
    requires fact_1 { left ≤ length s.now }
    requires fact_2 { right ≤ length s.now }
    ensures { (shift : ℕ) (l : List Attribute) (kids : Nodes) → Place s.now (lookup (bytes "lowClosed") l) left → Place s.now (lookup (bytes "highClosed") l) right → BoundsSaid shift kids low high → result ≡ breaks_interval shift l kids }
{
    let first = breaks_side(s, left, Side::Low, low);
    let second = breaks_side(s, right, Side::High, high);
    first | second | is_crossed(s, right, low, high)
}

// CD: code, name or version lacks a codeSystem; displayName lacks a code; non-null with neither code nor codeSystem.
fn breaks_code(tag: Tag, display: bool) -> bool
    ensures { (s : List ℕ) (shift : ℕ) (l : List Attribute) (kids : Nodes) → Tells s l tag.places → display ≡ has_children kids → result ≡ breaks_code shift l kids }
{
    let code = has(tag, CODE);
    let name = has(tag, CODE_SYSTEM_NAME);
    let version = has(tag, CODE_SYSTEM_VERSION);
    let system = has(tag, CODE_SYSTEM);
    let null = has(tag, NULL_FLAVOR);
    ((code | name | version) & !system) | (display & !code) | (!null & !code & !system)
}

// Whether both PFX and SFX are among the qualifiers at a place.
fn has_both_ends(s: &[u8], place: usize) -> bool
    requires { place ≤ length s.now }
    ensures { (l : List Attribute) → Place s.now (lookup (bytes "qualifier") l) place → result ≡ (has_qualifier "PFX" l && has_qualifier "SFX" l) }
{
    if place == 0 {
        return false;
    }
    if has_word(s, place, b"PFX") {
        return has_word(s, place, b"SFX");
    }
    false
}

// A part of EN, non-null: no value or an empty one, or both PFX and SFX.
fn breaks_part(s: &[u8], null: bool, value: usize, qualifier: usize) -> bool
    requires fact_1 { value ≤ length s.now }
    requires fact_2 { qualifier ≤ length s.now }
    ensures { (shift : ℕ) (l : List Attribute) (kids : Nodes) → null ≡ is_null l → Place s.now (lookup (bytes "value") l) value → Place s.now (lookup (bytes "qualifier") l) qualifier → result ≡ breaks_part shift l kids }
{
    let some = has_some_text(s, value);
    !null & (!some | has_both_ends(s, qualifier))
}

// Whether what the bounds of an interval say breaks a rule, with its tag; other kinds have no bounds.
pub fn breaks_bounds(s: &[u8], tag: Tag, kind: Kind, low: Said, high: Said) -> bool
    requires { TagIn s.now tag }
    ensures { (shift : ℕ) (l : List Attribute) (kids : Nodes) → Tells s.now l tag.places → kind_meant kind ≡ IVL_TS → BoundsSaid shift kids low high → result ≡ breaks_interval shift l kids }
{
    if let Kind::IvlTs = kind {
        return breaks_interval(
            s,
            tag.places[LOW_CLOSED],
            tag.places[HIGH_CLOSED],
            low,
            high,
        );
    }
    false
}

// Whether an element of a kind breaks the invariants of that kind, by its tag, by whether it has children, and by whether the bounds of an
// interval break a rule.
pub fn breaks(s: &[u8], tag: Tag, kind: Kind, any: bool, bounds: bool) -> bool
    requires { TagIn s.now tag }
    ensures { (shift : ℕ) (l : List Attribute) (kids : Nodes) → Tells s.now l tag.places → any ≡ has_children kids → (kind_meant kind ≡ IVL_TS → bounds ≡ breaks_interval shift l kids) → result ≡ (line_of (kind_meant kind)).invariant shift l kids }
{
    let null = has(tag, NULL_FLAVOR);
    let value = has(tag, VALUE);
    match kind {
        // Exactly one of value and nullFlavor.
        Kind::Ts => !exactly_one(value, null),
        Kind::IvlTs => bounds,
        Kind::QsuTs => false,
        Kind::QsiTs => false,
        Kind::QsdTs => false,
        // Value and currency, both or neither, neither only if null.
        Kind::Mo => exactly_one(value, has(tag, CURRENCY)) | (!value & !null),
        // Root is required unless null.
        Kind::Ii => !has(tag, ROOT) & !null,
        Kind::Cd => breaks_code(tag, any),
        Kind::En => false,
        Kind::DisplayName => false,
        Kind::Part => breaks_part(s, null, tag.places[VALUE], tag.places[QUALIFIER]),
    }
}
