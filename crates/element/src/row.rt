// What follows a start tag: elements side by side, and the end tag.
ghost use Rattle.std.specs.Prelude.{◌≡◌, true, List, ℕ, ◌-◌, ◌≤◌, ◌<◌, length, take, drop};
ghost use Rattle.rules.specs.Parsers.{ok};
ghost use Rattle.rules.specs.Markup.{Element, end_tag};
ghost use Rattle.element.specs.Tags.{TagOf, TagIn};
ghost use Rattle.element.specs.Rows.{is_child};

use crate::tag::Tag;
use markup::read_content;
use markup::tag::read_end_tag;

// Whether an element, and not an end tag, stands at a position, where one of the two does.
pub fn is_child(s: &[u8], at: usize) -> bool
    requires { at ≤ length s.now }
    ensures { (result ≡ is_child (drop at s.now)) × (result ≡ true → at < length s.now) }
{
    if s.len() - at < 2 {
        return false;
    }
    (s[at] == b'<') & (s[at + 1] != b'/')
}

// The position past the end tag at a position, of the element whose name stands at `name`, up to `past`.
pub fn past_end_tag(s: &[u8], at: usize, name: usize, past: usize) -> usize
    requires fact_1 { at ≤ length s.now }
    requires fact_2 { name ≤ past }
    requires fact_3 { past ≤ length s.now }
    ensures within { (at ≤ result) × (result ≤ length s.now) }
    ensures tells { (c : ℕ) (after : List ℕ) → end_tag (take (past - name) (drop name s.now)) (drop at s.now) ≡ ok c after → after ≡ drop result s.now }
{
    read_end_tag(s, at, name, past).unwrap_or(at)
}

// The position past the element of a tag, where `depth` may be open at once; nothing in it is asked.
pub fn past_element(s: &[u8], tag: Tag, depth: usize) -> usize
    requires { TagIn s.now tag }
    ensures within { (tag.end ≤ result) × (result ≤ length s.now) }
    ensures tells { (v : Element) (after : List ℕ) → TagOf s.now depth v after tag → after ≡ drop result s.now }
{
    if tag.full & (depth != 0) {
        let i = read_content(s, tag.end, depth - 1);
        return past_end_tag(s, i, tag.name, tag.past);
    }
    tag.end
}
