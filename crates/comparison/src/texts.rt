// Attributes of two elements, compared as texts.
ghost use Rattle.std.specs.Prelude.{◌≡◌, List, ◌<◌};
ghost use Rattle.rules.specs.Markup.{Attribute};
ghost use Rattle.rules.specs.Comparison.{same_attribute};
ghost use Rattle.element.specs.Names.{known, name_at};
ghost use Rattle.element.specs.Tags.{Tells, TagIn};

use element::tag::Tag;
use element::value;

// Whether two elements say the same in the attribute of a number, decoded, or both lack it, by their tags.
pub fn same_attribute(s: &[u8], a: Tag, t: &[u8], b: Tag, n: usize) -> bool
    requires fact_1 { TagIn s.now a }
    requires fact_2 { TagIn t.now b }
    requires fact_3 { n < known }
    ensures { (l m : List Attribute) → Tells s.now l a.places → Tells t.now m b.places → result ≡ same_attribute (name_at n) l m }
{
    let p = a.places[n];
    let q = b.places[n];
    if p == 0 {
        return q == 0;
    }
    if q == 0 {
        return false;
    }
    value::is_same(s, p, t, q)
}
