// The start tag of an element, read once.
ghost use Rattle.std.specs.Prelude.{◌≡◌, cond, List, ℕ, ◌≤◌, ◌<◌, length};
ghost use Rattle.rules.specs.Basics.{is_some};
ghost use Rattle.rules.specs.Markup.{Attribute, lookup, Element};
ghost use Rattle.element.specs.Names.{known, name_at};
ghost use Rattle.element.specs.Tags.{ElementTo, Tells, TagOf, TagIn};
ghost use Rattle.element.specs.Carried.{PastEquals, AttributesTo, CarriedIn, CarriedAs, PastLiteral, Closed};
ghost use Rattle.element.specs.Plain.{StartAt};

use crate::name::{KNOWN, number_of, plain_at};
use markup::scan::{read_byte, read_literal, read_name, skip_space};
use markup::tag::read_head;
use text::begins_with;

// A start tag: for each known name where its value stands, with the quotes, 0 if there is none; how many other names do not begin with xmlns,
// and how many do; where the name of the element stands, up to `past`; where the tag ends, and whether content follows.
#[derive(Clone, Copy)]
pub struct Tag {
    pub places: [usize; KNOWN],
    pub others: usize,
    pub namespaces: usize,
    pub name: usize,
    pub past: usize,
    pub end: usize,
    pub full: bool,
}

// Whether an element carries the attribute of a number, by its tag.
pub fn has(tag: Tag, n: usize) -> bool
    requires { n < known }
    ensures { (s : List ℕ) (l : List Attribute) → Tells s l tag.places → result ≡ is_some (lookup (name_at n) l) }
{
    tag.places[n] != 0
}

// What a tag carries: the attributes as `Tag` has them, and where they end.
#[derive(Clone, Copy)]
struct Carried {
    places: [usize; KNOWN],
    others: usize,
    namespaces: usize,
    end: usize,
}

// 1 if something is so, else 0.
fn one_if(so: bool) -> usize
    ensures { (result ≡ cond so 1 0) × (result ≤ 1) }
{
    if so { 1 } else { 0 }
}

// Where the value stands of an attribute whose name ends at a position: past `=` and the white space around it; the last byte of the name,
// if the text ends before.
fn past_equals(s: &[u8], at: usize) -> usize
    requires fact_1 { 0 < at }
    requires fact_2 { at ≤ length s.now }
    ensures { PastEquals s.now at result }
{
    let i = skip_space(s, at);
    if i < s.len() {
        let value = skip_space(s, i + 1);
        if value < s.len() {
            return value;
        }
    }
    at - 1
}

// An attribute: the number of its name, where the name ends, and where its value stands.
#[derive(Clone, Copy)]
struct Start {
    number: usize,
    name_end: usize,
    value: usize,
}

// The attribute at a position, if a name stands there. Where a known name is found with `="` right after it, it is not read again as a name.
fn start_at(s: &[u8], at: usize) -> Option<Start>
    requires { at ≤ length s.now }
    ensures { StartAt s.now at result }
{
    if let Some(plain) = plain_at(s, at) {
        let name_end = at + plain.size;
        return Some(Start {
            number: plain.number,
            name_end,
            value: name_end + 1,
        });
    }
    let name_end = read_name(s, at)?;
    Some(Start {
        number: number_of(&s[at..name_end]),
        name_end,
        value: past_equals(s, name_end),
    })
}

// The attributes that stand from a position on. Values are passed by their quotes.
fn read_carried(s: &[u8], at: usize) -> Carried
    requires { at ≤ length s.now }
    ensures within { CarriedIn s.now at result }
    ensures tells { (l : List Attribute) (left : List ℕ) → AttributesTo s.now at l left → CarriedAs s.now l left result }
{
    let mut places: [usize; KNOWN] = [0; KNOWN];
    let mut others = 0;
    let mut namespaces = 0;
    let mut end = at;
    loop {
        let i = skip_space(s, end);
        let Some(start) = start_at(s, i) else {
            return Carried {
                places,
                others,
                namespaces,
                end,
            };
        };
        let number = start.number;
        end = crate::value::end(s, start.value);
        if number < KNOWN {
            if places[number] == 0 {
                places[number] = start.value;
            }
        } else {
            let space = begins_with(&s[i..start.name_end], b"xmlns");
            others = others + one_if(!space);
            namespaces = namespaces + one_if(space);
        }
    }
}

// The position past a text that stands at a position.
fn past_literal(s: &[u8], at: usize, t: &[u8]) -> usize
    requires { at ≤ length s.now }
    ensures { PastLiteral s.now at t.now result }
{
    read_literal(s, at, t).unwrap_or(at)
}

// A tag by what it carries, up to where it closes: white space may stand before that.
fn close(s: &[u8], name: usize, past: usize, c: Carried) -> Tag
    requires { c.end ≤ length s.now }
    ensures { Closed s.now name past c result }
{
    let places = c.places;
    let i = skip_space(s, c.end);
    if let Some(end) = read_byte(s, i, b'>') {
        return Tag {
            places,
            others: c.others,
            namespaces: c.namespaces,
            name,
            past,
            end,
            full: true,
        };
    }
    Tag {
        places,
        others: c.others,
        namespaces: c.namespaces,
        name,
        past,
        end: past_literal(s, i, b"/>"),
        full: false,
    }
}

// The start tag at a position; where no `<` with a name stands, one that carries nothing and ends where the text does.
pub fn read(s: &[u8], at: usize) -> Tag
    requires { at ≤ length s.now }
    ensures within { TagIn s.now result × (at < length s.now → at < result.end) }
    ensures tells { (depth : ℕ) (v : Element) (after : List ℕ) → ElementTo s.now at depth v after → TagOf s.now depth v after result }
{
    let Some(head) = read_head(s, at) else {
        return Tag {
            places: [0; KNOWN],
            others: 0,
            namespaces: 0,
            name: 0,
            past: 0,
            end: s.len(),
            full: false,
        };
    };
    close(s, head.name, head.name_end, read_carried(s, head.name_end))
}
