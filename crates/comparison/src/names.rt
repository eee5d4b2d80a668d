// Names, compared part by part.
ghost use Rattle.std.specs.Prelude.{◌≡◌, List, ℕ, ◌≤◌};
ghost use Rattle.rules.specs.Markup.{Attribute, Element};
ghost use Rattle.rules.specs.Comparison.{compare_parts, compare_names};
ghost use Rattle.element.specs.Tags.{Tells, TagOf, TagIn};
ghost use Rattle.comparison.specs.Meaning.{answer_meant};

use crate::texts::same_attribute;
use crate::{Answer, also, answer_if};
use element::inside::{Inside, next_inside};
use element::name::{NULL_FLAVOR, PART_TYPE, VALUE};
use element::row::past_element;
use element::tag;
use element::tag::{Tag, has};

// Two parts: type and value; a null part is unknown.
fn compare_parts(s: &[u8], a: Tag, t: &[u8], b: Tag) -> Answer
    requires fact_1 { TagIn s.now a }
    requires fact_2 { TagIn t.now b }
    ensures { (l m : List Attribute) → Tells s.now l a.places → Tells t.now m b.places → answer_meant result ≡ compare_parts l m }
{
    if has(a, NULL_FLAVOR) | has(b, NULL_FLAVOR) {
        return Answer::Unknown;
    }
    let types = same_attribute(s, a, t, b, PART_TYPE);
    answer_if(types & same_attribute(s, a, t, b, VALUE))
}

// EN: differing part counts give no, else parts in order.
pub fn compare_names(s: &[u8], a: Tag, t: &[u8], b: Tag, depth: usize) -> Answer
    requires fact_1 { TagIn s.now a }
    requires fact_2 { TagIn t.now b }
    requires fact_3 { 1 ≤ depth }
    ensures { (n : ℕ) (v w : Element) (after rest : List ℕ) → TagOf s.now depth v after a → TagOf t.now depth w rest b → answer_meant result ≡ compare_names n v w }
{
    let mut answer = Answer::Yes;
    let mut i = a.end;
    let mut j = b.end;
    loop {
        let first = next_inside(s, a.full, a.name, a.past, depth, i);
        let second = next_inside(t, b.full, b.name, b.past, depth, j);
        match first {
            Inside::Child(p) => {
                let Inside::Child(q) = second else {
                    return Answer::No;
                };
                let part = tag::read(s, p);
                let other = tag::read(t, q);
                answer = also(answer, compare_parts(s, part, t, other));
                i = past_element(s, part, depth - 1);
                j = past_element(t, other, depth - 1);
            }
            Inside::Past(_) => {
                let Inside::Past(_) = second else {
                    return Answer::No;
                };
                return answer;
            }
        }
    }
}
