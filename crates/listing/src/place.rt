// Whether a place is in the set of times that an element writes: place by place, set within set, with no list.
ghost use Rattle.std.specs.Prelude.{◌≡◌, cond, List, [], ℕ, ◌^◌, ◌≤◌, ◌<◌, length, drop};
ghost use Rattle.rules.specs.Markup.{Element};
ghost use Rattle.rules.specs.Sets.{apply as page_apply};
ghost use Rattle.rules.specs.Listing.{interval_of};
ghost use Rattle.rules.specs.ListingPromise.{is_within, together};
ghost use Rattle.interval.specs.Meaning.{op_of, place_of};
ghost use Rattle.element.specs.Tags.{TagOf, TagIn};
ghost use Rattle.listing.specs.Places.{MeansElement};

use crate::bound::interval_of;
use crate::set::{Shape, shape_of};
use element::inside::{Inside, next_inside};
use element::row::past_element;
use element::tag;
use element::tag::Tag;
use interval::{Op, apply, is_in};
use timestamp::Shift;

// Whether a place is in the set that an element writes, and the position past the element.
#[derive(Clone, Copy)]
pub struct Meant {
    pub is: bool,
    pub end: usize,
}

// Whether a place is in a set of no members.
fn in_none(op: Op) -> bool
    ensures { result ≡ together (op_of op) [] }
{
    match op {
        Op::Union => false,
        Op::Intersection => true,
        Op::Difference => false,
    }
}

// Whether a place is in a set put together with the next one; in the next one, where there was none.
fn in_both(op: Op, any: bool, first: bool, next: bool) -> bool
    ensures { result ≡ cond any (page_apply (op_of op) first next) next }
{
    if any {
        return apply(op, first, next);
    }
    next
}

// Whether a tick, or the gap after it, is in the interval that the element of a tag writes, where `depth` may be open at once.
fn in_single(s: &[u8], tag: Tag, depth: usize, shift: Shift, n: u64, gap: bool) -> Meant
    requires fact_1 { TagIn s.now tag }
    requires fact_2 { n < 2 ^ 60 }
    ensures within { (tag.end ≤ result.end) × (result.end ≤ length s.now) }
    ensures tells { (v : Element) (after : List ℕ) → TagOf s.now depth v after tag → (result.is ≡ is_within (interval_of shift.minutes v.attrs v.kids) (place_of n gap)) × (after ≡ drop result.end s.now) }
{
    let w = interval_of(s, tag, depth, shift);
    let is = match w.interval {
        Some(v) => is_in(v, n, gap),
        None => false,
    };
    Meant { is, end: w.end }
}

// Whether a tick, or the gap after it, is in the set that the element of a tag writes, where `depth` may be open at once. It calls itself
// for the members, with `depth` falling.
pub fn is_meant_at(s: &[u8], tag: Tag, depth: usize, shift: Shift, n: u64, gap: bool) -> Meant
    requires { (TagIn s.now tag) × (n < 2 ^ 60) }
    ensures within { (tag.end ≤ result.end) × (result.end ≤ length s.now) }
    ensures tells { MeansElement s.now tag depth shift.minutes (place_of n gap) result }
{
    let shape = shape_of(s, tag);
    let op = match shape {
        Shape::Single => return in_single(s, tag, depth, shift, n, gap),
        Shape::Members(op) => op,
        Shape::Other => {
            return Meant {
                is: false,
                end: past_element(s, tag, depth),
            };
        }
    };
    let mut so_far = in_none(op);
    let mut any = false;
    let mut at = tag.end;
    loop {
        let next = next_inside(s, tag.full, tag.name, tag.past, depth, at);
        match next {
            Inside::Child(i) => {
                let child = tag::read(s, i);
                let member = is_meant_at(s, child, depth - 1, shift, n, gap);
                so_far = in_both(op, any, so_far, member.is);
                any = true;
                at = member.end;
            }
            Inside::Past(end) => return Meant { is: so_far, end },
        }
    }
}
