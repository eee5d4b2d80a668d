// Amounts, identifiers and codes, compared.
ghost use Rattle.std.specs.Prelude.{◌≡◌, List, ℕ, ◌<◌};
ghost use Rattle.rules.specs.Markup.{Attribute, Element};
ghost use Rattle.rules.specs.Comparison.{same_option, same_amount, compare_money, compare_identifiers, compare_codes};
ghost use Rattle.form.specs.Amounts.{amount_of};
ghost use Rattle.element.specs.Names.{known, name_at};
ghost use Rattle.element.specs.Tags.{Tells, TagIn};
ghost use Rattle.comparison.specs.Meaning.{answer_meant};
ghost use Rattle.comparison.specs.Readings.{same_amount_read};

use crate::texts::same_attribute;
use crate::{Answer, answer_if};
use datatype::money::amount_at;
use element::name::{CODE, CODE_SYSTEM, CURRENCY, EXTENSION, ROOT, VALUE};
use element::tag::{Tag, has};
use form::money::Amount;

// Whether two amounts are the same number, or neither is one; zero has no sign.
fn same_amount(a: Option<Amount>, b: Option<Amount>) -> bool
    ensures { result ≡ same_option same_amount (amount_of a) (amount_of b) }
{
    let Some(x) = a else {
        return b.is_none();
    };
    let Some(y) = b else {
        return false;
    };
    (x.value == y.value) & ((x.negative == y.negative) | (x.value == 0))
}

// Whether two elements say the same amount in the attribute of a number, or neither says one, by their tags.
fn same_amount_at(s: &[u8], a: Tag, t: &[u8], b: Tag, n: usize) -> bool
    requires fact_1 { TagIn s.now a }
    requires fact_2 { TagIn t.now b }
    requires fact_3 { n < known }
    ensures { (l m : List Attribute) → Tells s.now l a.places → Tells t.now m b.places → result ≡ same_amount_read (name_at n) l m }
{
    same_amount(amount_at(s, a.places[n]), amount_at(t, b.places[n]))
}

// MO: amount, as a number, and currency.
pub fn compare_money(s: &[u8], a: Tag, t: &[u8], b: Tag) -> Answer
    requires fact_1 { TagIn s.now a }
    requires fact_2 { TagIn t.now b }
    ensures { (n : ℕ) (v w : Element) → Tells s.now v.attrs a.places → Tells t.now w.attrs b.places → answer_meant result ≡ compare_money n v w }
{
    let amounts = same_amount_at(s, a, t, b, VALUE);
    answer_if(amounts & same_attribute(s, a, t, b, CURRENCY))
}

// II: root and extension.
pub fn compare_identifiers(s: &[u8], a: Tag, t: &[u8], b: Tag) -> Answer
    requires fact_1 { TagIn s.now a }
    requires fact_2 { TagIn t.now b }
    ensures { (n : ℕ) (v w : Element) → Tells s.now v.attrs a.places → Tells t.now w.attrs b.places → answer_meant result ≡ compare_identifiers n v w }
{
    let roots = same_attribute(s, a, t, b, ROOT);
    answer_if(roots & same_attribute(s, a, t, b, EXTENSION))
}

// CD: code and codeSystem; unknown if either lacks a code.
pub fn compare_codes(s: &[u8], a: Tag, t: &[u8], b: Tag) -> Answer
    requires fact_1 { TagIn s.now a }
    requires fact_2 { TagIn t.now b }
    ensures { (n : ℕ) (v w : Element) → Tells s.now v.attrs a.places → Tells t.now w.attrs b.places → answer_meant result ≡ compare_codes n v w }
{
    if has(a, CODE) & has(b, CODE) {
        let codes = same_attribute(s, a, t, b, CODE);
        return answer_if(codes & same_attribute(s, a, t, b, CODE_SYSTEM));
    }
    Answer::Unknown
}
