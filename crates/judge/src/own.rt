// An element judged, with what is inside it: its attributes, its invariants and the row of its children put together.
ghost use Rattle.std.specs.Prelude.{◌≡◌, ◌||◌, List, ℕ};
ghost use Rattle.rules.specs.Refusal.{first_of};
ghost use Rattle.std.proofs.Math.Option.{some};
ghost use Rattle.rules.specs.Markup.{Attribute, Nodes, Element};
ghost use Rattle.rules.specs.Invariants.{has_children, breaks_interval};
ghost use Rattle.rules.specs.Types.{TS, IVL_TS, line_of};
ghost use Rattle.rules.specs.Judge.{breaks_null};
ghost use Rattle.refusal.specs.Meaning.{fault_of};
ghost use Rattle.element.specs.Tags.{Tells, TagOf, TagIn};
ghost use Rattle.datatype.specs.Meaning.{kind_meant};
ghost use Rattle.datatype.specs.Tables.{standing_meant};
ghost use Rattle.datatype.specs.Said.{said_meant, time_fault};
ghost use Rattle.judge.specs.Faults.{judged};
ghost use Rattle.judge.specs.Rows.{said_of, ContentAs};

use crate::carried::{attributes_fault, has_own, lacks};
use crate::row::Content;
use crate::rule::breaks;
use datatype::kind::Kind;
use datatype::said::{Said, Time, time_of};
use datatype::table::Standing;
use element::name::NULL_FLAVOR;
use element::tag::{Tag, has};
use refusal::{Refusal, first, refused_if};
use timestamp::Shift;

// What a time says and what its value is refused for; another element says nothing.
pub fn time_in(s: &[u8], tag: Tag, kind: Kind, shift: Shift) -> Time
    requires { TagIn s.now tag }
    ensures { (l : List Attribute) → Tells s.now l tag.places → (kind_meant kind ≡ TS → fault_of result.fault ≡ time_fault shift.minutes l) × (said_meant result.said ≡ said_of (kind_meant kind) shift.minutes l) }
{
    if let Kind::Ts = kind {
        return time_of(s, tag, shift);
    }
    Time {
        fault: Ok(()),
        said: Said::Nothing,
    }
}

// Whether an element is null and has another attribute of its line or a child.
fn breaks_null(tag: Tag, kind: Kind, any: bool) -> bool
    ensures { (s : List ℕ) (l : List Attribute) (kids : Nodes) → Tells s l tag.places → any ≡ has_children kids → result ≡ breaks_null (kind_meant kind) l kids }
{
    if has(tag, NULL_FLAVOR) {
        return has_own(tag, kind) | any;
    }
    false
}

// Whether an element breaks a rule of its kind, by its tag and what is inside it.
fn is_broken(s: &[u8], tag: Tag, kind: Kind, content: Content) -> bool
    requires { TagIn s.now tag }
    ensures { (shift : ℕ) (l : List Attribute) (kids : Nodes) → Tells s.now l tag.places → content.any ≡ has_children kids → (kind_meant kind ≡ IVL_TS → content.broken ≡ breaks_interval shift l kids) → result ≡ ((line_of (kind_meant kind)).invariant shift l kids || breaks_null (kind_meant kind) l kids) }
{
    breaks(s, tag, kind, content.any, content.broken) | breaks_null(tag, kind, content.any)
}

// The first fault of an element of a kind and of what is inside it, by its tag; `text` is the fault of the timestamp of a TS.
pub fn judge_with(
    s: &[u8],
    tag: Tag,
    kind: Kind,
    standing: Standing,
    text: Result<(), Refusal>,
    content: Content,
    shift: Shift,
) -> Result<(), Refusal>
    requires { TagIn s.now tag }
    ensures { (depth : ℕ) (v : Element) (after : List ℕ) → TagOf s.now depth v after tag → (kind_meant kind ≡ TS → fault_of text ≡ time_fault shift.minutes v.attrs) → ContentAs s.now shift.minutes (kind_meant kind) v after content → fault_of result ≡ first_of (judged shift.minutes (standing_meant standing) (some (kind_meant kind)) v) }
{
    let carried = attributes_fault(s, tag, kind, standing, text, shift);
    let missing = refused_if(Refusal::Shape, lacks(tag, kind));
    let broken = refused_if(Refusal::Rule, is_broken(s, tag, kind, content));
    let own = first(carried, first(missing, broken));
    first(own, content.fault)
}
