// The kinds of elements, and the types that `xsi:type` names.
ghost use Rattle.std.specs.Prelude.{◌≡◌, List, ℕ, ◌≤◌, length, drop};
ghost use Rattle.rules.specs.Basics.{bytes};
ghost use Rattle.rules.specs.Parsers.{ok};
ghost use Rattle.rules.specs.Markup.{Attribute, value, lookup};
ghost use Rattle.rules.specs.Types.{type_among};
ghost use Rattle.element.specs.Tags.{Place};
ghost use Rattle.datatype.specs.Meaning.{type_meant, Names, kinds_of, named_among, types_for};

use text::words::stands_at;

// The nine types, and the two kinds of element inside them that have no type.
#[derive(Clone, Copy, PartialEq, Eq)]
pub enum Kind {
    Ts,
    IvlTs,
    QsuTs,
    QsiTs,
    QsdTs,
    Mo,
    Ii,
    Cd,
    En,
    DisplayName,
    Part,
}

// The types by their names as values, in quotes: those that a record may have, of which the last four may be a member of a set.
const TYPES: [(&[u8], Kind); 9] = [
    (b"\"TS\"", Kind::Ts),
    (b"\"MO\"", Kind::Mo),
    (b"\"II\"", Kind::Ii),
    (b"\"CD\"", Kind::Cd),
    (b"\"EN\"", Kind::En),
    (b"\"IVL_TS\"", Kind::IvlTs),
    (b"\"QSU_TS\"", Kind::QsuTs),
    (b"\"QSI_TS\"", Kind::QsiTs),
    (b"\"QSD_TS\"", Kind::QsdTs),
];

// The type, among some by their names, that the value at a position names. No byte of a name can be written as a reference, so the value is
// the name exactly if that stands there, in its quotes.
fn named(s: &[u8], at: usize, types: &[(&[u8], Kind)]) -> Option<Kind>
    requires { at ≤ length s.now }
    ensures { (v after : List ℕ) → value (drop at s.now) ≡ ok v after → Names types.now → type_meant result ≡ named_among (kinds_of types.now) v }
{
    for (name, kind) in types {
        if stands_at(s, at, name) {
            return Some(*kind);
        }
    }
    None
}

// The type that an element names whose `xsi:type` has its value at a place: one that a record may have, or one that a member of a set may have.
pub fn type_at(s: &[u8], place: usize, top: bool) -> Option<Kind>
    requires { place ≤ length s.now }
    ensures { (l : List Attribute) → Place s.now (lookup (bytes "xsi:type") l) place → type_meant result ≡ type_among (types_for top) l }
{
    if place == 0 {
        return None;
    }
    if top {
        if let Some(kind) = named(s, place, &TYPES[..5]) {
            return Some(kind);
        }
        return named(s, place, &TYPES[5..]);
    }
    named(s, place, &TYPES[5..])
}
