// The attributes of an element, judged by the numbers of their names.
ghost use Rattle.std.specs.Prelude.{◌≡◌, ℕ, ◌≤◌, ◌<◌, length, drop};
ghost use mathlib.Core.List.{List, flat_map};
ghost use Rattle.rules.specs.Basics.{is_some, exists};
ghost use Rattle.rules.specs.Refusal.{SHAPE, first_of, ◌when◌};
ghost use Rattle.rules.specs.Parsers.{ok};
ghost use Rattle.rules.specs.Markup.{Attribute, Element, value as text_of, lookup};
ghost use Rattle.rules.specs.Forms.{form_faults};
ghost use Rattle.rules.specs.Types.{TS, line_of};
ghost use Rattle.rules.specs.Judge.{is_top, attribute_faults, carries, lacks as lacks_one};
ghost use Rattle.refusal.specs.Meaning.{fault_of};
ghost use Rattle.element.specs.Names.{known, name_at};
ghost use Rattle.element.specs.Tags.{Place, Tells, count, is_namespace, is_other, TagOf, TagIn};
ghost use Rattle.form.specs.Meaning.{form_of};
ghost use Rattle.datatype.specs.Meaning.{kind_meant};
ghost use Rattle.datatype.specs.Tables.{standing_meant, form_meant};
ghost use Rattle.datatype.specs.Said.{time_fault};
ghost use Rattle.judge.specs.Carried.{fault_at, is_strange};

use datatype::columns::{column_of, own_column};
use datatype::kind::Kind;
use datatype::table::Standing;
use element::name::VALUE;
use element::tag::{Tag, has};
use form::Form;
use refusal::{Refusal, first, refused_if};
use timestamp::Shift;

// Whether an element stands at the top.
fn is_top(standing: Standing) -> bool
    ensures { result ≡ is_top (standing_meant standing) }
{
    matches!(standing, Standing::Top)
}

// The first fault of the attributes whose names are not known: so many others, and so many whose names begin with xmlns, which are ignored at
// the top.
fn others_fault(others: usize, namespaces: usize, standing: Standing) -> Result<(), Refusal>
    ensures { (l : List Attribute) → others ≡ count is_other l → namespaces ≡ count is_namespace l → fault_of result ≡ first_of (SHAPE when exists (is_strange (standing_meant standing)) l) }
{
    let spaced = !is_top(standing) & (namespaces != 0);
    refused_if(Refusal::Shape, (others != 0) | spaced)
}

// The fault of the value at a place that is to be of a form. That of any text is not read.
fn text_fault(s: &[u8], place: usize, form: Form, shift: Shift) -> Result<(), Refusal>
    requires { place < length s.now }
    ensures { (v : List ℕ) (e : ℕ) → e ≤ length s.now → text_of (drop place s.now) ≡ ok v (drop e s.now) → fault_of result ≡ first_of (form_faults shift.minutes (form_of form) v) }
{
    if let Form::AnyText = form {
        return Ok(());
    }
    let end = element::value::end(s, place);
    form::fault(s, place, end, form, shift)
}

// The first fault of the attribute of a number, whose value stands at a place; `time` is that of the timestamp of a TS.
fn attribute_fault(
    s: &[u8],
    n: usize,
    place: usize,
    kind: Kind,
    standing: Standing,
    time: Result<(), Refusal>,
    shift: Shift,
) -> Result<(), Refusal>
    requires fact_1 { n < known }
    requires fact_2 { 0 < place }
    requires fact_3 { place < length s.now }
    ensures { (l : List Attribute) → Place s.now (lookup (name_at n) l) place → (kind_meant kind ≡ TS → fault_of time ≡ time_fault shift.minutes l) → fault_of result ≡ fault_at (attribute_faults shift.minutes (standing_meant standing) (kind_meant kind)) l n }
{
    if let Kind::Ts = kind {
        if n == VALUE {
            return time;
        }
    }
    let Some(form) = column_of(kind, standing, n) else {
        return Err(Refusal::Shape);
    };
    text_fault(s, place, form, shift)
}

// The first fault of the attributes of an element of a kind, by its tag; `time` is the fault of the timestamp of a TS.
pub fn attributes_fault(
    s: &[u8],
    tag: Tag,
    kind: Kind,
    standing: Standing,
    time: Result<(), Refusal>,
    shift: Shift,
) -> Result<(), Refusal>
    requires { TagIn s.now tag }
    ensures { (depth : ℕ) (v : Element) (after : List ℕ) → TagOf s.now depth v after tag → (kind_meant kind ≡ TS → fault_of time ≡ time_fault shift.minutes v.attrs) → fault_of result ≡ first_of (flat_map (attribute_faults shift.minutes (standing_meant standing) (kind_meant kind)) v.attrs) }
{
    let mut so_far = others_fault(tag.others, tag.namespaces, standing);
    for (n, &place) in tag.places.iter().enumerate() {
        if place != 0 {
            so_far = first(
                so_far,
                attribute_fault(s, n, place, kind, standing, time, shift),
            );
        }
    }
    so_far
}

// Whether an element carries an attribute of the line of a kind, by its tag.
pub fn has_own(tag: Tag, kind: Kind) -> bool
    ensures { (s : List ℕ) (l : List Attribute) → Tells s l tag.places → result ≡ exists (carries l) (line_of (kind_meant kind)).columns }
{
    for (n, &place) in tag.places.iter().enumerate() {
        if own_column(kind, n).is_some() & (place != 0) {
            return true;
        }
    }
    false
}

// Whether an element of a kind lacks an attribute that has to be there, by its tag.
pub fn lacks(tag: Tag, kind: Kind) -> bool
    ensures { (s : List ℕ) (l : List Attribute) → Tells s l tag.places → result ≡ exists (lacks_one l) (line_of (kind_meant kind)).columns }
{
    match kind {
        Kind::DisplayName => !has(tag, VALUE),
        _ => false,
    }
}
