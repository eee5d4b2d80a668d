// The set of times that an element writes, put together from the intervals in it.
ghost use Rattle.std.specs.Prelude.{◌≡◌, false, List, ℕ, ◌≤◌, length, drop};
ghost use Rattle.rules.specs.Markup.{Element};
ghost use Rattle.rules.specs.Sets.{Expression, combine};
ghost use Rattle.rules.specs.Listing.{interval_of};
ghost use Rattle.interval.specs.Meaning.{op_of};
ghost use Rattle.element.specs.Tags.{TagOf, TagIn};
ghost use Rattle.listing.specs.Sets.{shape_of, WritesAs, Formed, IsSet, Says, expressed, SaysElement};

use crate::bound::interval_of;
use datatype::kind::{Kind, type_at};
use element::inside::{Inside, next_inside};
use element::name::{NULL_FLAVOR, XSI_TYPE};
use element::tag;
use element::tag::Tag;
use interval::{Op, Stretches};
use timestamp::Shift;

// What an element writes, by its type: one interval, or a set of members that an operation puts together, or neither.
#[derive(Clone, Copy)]
pub enum Shape {
    Single,
    Members(Op),
    Other,
}

// A set of times: whether all of it is known; and, if it is, how many intervals are written in it, 33 for more than 32, up to 32 its
// stretches, and the position past the element that writes it.
#[derive(Clone, Copy)]
pub struct Evaluated {
    pub known: bool,
    pub count: usize,
    pub set: Stretches,
    pub end: usize,
}

// What an element of a kind writes.
pub fn shape_of_kind(kind: Kind) -> Shape
    ensures { result ≡ shape_of kind }
{
    match kind {
        Kind::IvlTs => Shape::Single,
        Kind::QsuTs => Shape::Members(Op::Union),
        Kind::QsiTs => Shape::Members(Op::Intersection),
        Kind::QsdTs => Shape::Members(Op::Difference),
        _ => Shape::Other,
    }
}

// What the element of a tag writes.
pub fn shape_of(s: &[u8], tag: Tag) -> Shape
    requires { TagIn s.now tag }
    ensures { (d : ℕ) (v : Element) (after : List ℕ) → TagOf s.now d v after tag → WritesAs v.attrs result }
{
    let Some(kind) = type_at(s, tag.places[XSI_TYPE], false) else {
        return Shape::Other;
    };
    shape_of_kind(kind)
}

// A set that is not known, with no interval counted: that of an element that is null, of a type that writes neither an interval nor
// members, or whose one interval is not known; and that of members before the first is read.
fn nothing(end: usize) -> Evaluated
    ensures { Formed result × (result.known ≡ false) × (result.count ≡ 0) × (result.end ≡ end) }
{
    let set = interval::empty();
    Evaluated {
        known: false,
        count: 0,
        set,
        end,
    }
}

// The set of the one interval that the element of a tag writes, where `depth` may be open at once.
fn of_single(s: &[u8], tag: Tag, depth: usize, shift: Shift) -> Evaluated
    requires { TagIn s.now tag }
    ensures formed { Formed result }
    ensures within { (tag.end ≤ result.end) × (result.end ≤ length s.now) }
    ensures tells { (v : Element) (after : List ℕ) → TagOf s.now depth v after tag → Says (expressed (interval_of shift.minutes v.attrs v.kids)) result × (after ≡ drop result.end s.now) }
{
    let w = interval_of(s, tag, depth, shift);
    let Some(v) = w.interval else {
        return nothing(w.end);
    };
    let set = interval::single(v);
    Evaluated {
        known: true,
        count: 1,
        set,
        end: w.end,
    }
}

// Two sets put together. Where more than 32 intervals are written in them, no operation is done.
fn join(op: Op, a: Evaluated, b: Evaluated) -> Evaluated
    requires fact_1 { Formed a }
    requires fact_2 { Formed b }
    ensures formed { Formed result × (result.end ≡ b.end) }
    ensures tells { (x y : Expression) → IsSet x a → IsSet y b → IsSet (combine (op_of op) x y) result }
{
    let first = a.set;
    let count = a.count + b.count;
    if 32 < count {
        return Evaluated {
            known: true,
            count: 33,
            set: first,
            end: b.end,
        };
    }
    let second = b.set;
    let set = interval::combine(op, first, second);
    Evaluated {
        known: true,
        count,
        set,
        end: b.end,
    }
}

// The set that the element of a tag writes, where `depth` may be open at once: that of its one interval, or of its members, put together
// from the first on. It calls itself for the members, with `depth` falling. The first member that is not known ends it. What is returned is
// always `so_far`: a set is large, and each place that it is made at is one more to copy it from.
pub fn evaluate(s: &[u8], tag: Tag, depth: usize, shift: Shift) -> Evaluated
    requires { TagIn s.now tag }
    ensures formed { Formed result }
    ensures within { (tag.end ≤ result.end) × (result.end ≤ length s.now) }
    ensures tells { SaysElement s.now tag depth shift.minutes result }
{
    let mut so_far = nothing(tag.end);
    if tag::has(tag, NULL_FLAVOR) {
        return so_far;
    }
    let op = match shape_of(s, tag) {
        Shape::Single => {
            so_far = of_single(s, tag, depth, shift);
            return so_far;
        }
        Shape::Members(op) => op,
        Shape::Other => return so_far,
    };
    loop {
        match next_inside(s, tag.full, tag.name, tag.past, depth, so_far.end) {
            Inside::Child(i) => {
                let child = tag::read(s, i);
                let member = evaluate(s, child, depth - 1, shift);
                if !member.known {
                    so_far.known = false;
                    return so_far;
                }
                if so_far.count == 0 {
                    so_far = member;
                } else {
                    so_far = join(op, so_far, member);
                }
            }
            Inside::Past(end) => {
                so_far.end = end;
                return so_far;
            }
        }
    }
}
