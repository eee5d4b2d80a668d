// The forms of texts: what the decoded text of an attribute may be. An attribute's value stands at q, with its quotes, and ends at e. The
// contracts go from its decoded text to the answer.
#![tactic(auto)]

ghost use Rattle.std.specs.Prelude.{◌≡◌, not, List, ℕ, ◌≤◌, ◌<◌, length, drop};
ghost use Rattle.rules.specs.Basics.{is_some};
ghost use Rattle.rules.specs.Refusal.{VALUE, faults_of, first_of, ◌when◌};
ghost use Rattle.rules.specs.Parsers.{ok, whole};
ghost use Rattle.rules.specs.Markup.{value};
ghost use Rattle.rules.specs.Timestamp.{read_timestamp};
ghost use Rattle.rules.specs.Forms.{amount_text, form_faults};
ghost use Rattle.refusal.specs.Meaning.{fault_of};
ghost use Rattle.timestamp.specs.Moments.{outcome_of};
ghost use Rattle.form.specs.Amounts.{amount_of, code_of, Small};
ghost use Rattle.form.specs.Meaning.{form_of, between};

mod fixed;
pub mod money;
pub mod name;
pub mod oid;
mod parts;

use money::Amount;
use refusal::{Refusal, refused_if};
use timestamp::{Moment, Shift};

// The forms that the table of types asks for, by the name of what they are asked of.
#[derive(Clone, Copy)]
pub enum Form {
    AnyText,
    NonEmpty,
    Flavor,
    Timestamp,
    Flag,
    Amount,
    Currency,
    Root,
    PartType,
    Qualifiers,
}

// The bytes between the quotes of a value.
fn inside(s: &[u8], q: usize, e: usize) -> &[u8]
    requires fact_1 { q < e }
    requires fact_2 { e ≤ length s.now }
    ensures { result.now ≡ between s.now q e }
{
    let from = q + 1;
    if e == from {
        return &s[from..from];
    }
    let to = e - 1;
    &s[from..to]
}

// The moment that a value says, or a refusal; `shift` is 840 less the agreed offset in minutes.
pub fn moment(s: &[u8], q: usize, e: usize, shift: Shift) -> Result<Moment, Refusal>
    requires fact_1 { q < e }
    requires fact_2 { e ≤ length s.now }
    ensures { (v : List ℕ) → value (drop q s.now) ≡ ok v (drop e s.now) → outcome_of result ≡ read_timestamp shift.minutes v }
{
    let raw = inside(s, q, e);
    timestamp::read(raw, shift)
}

// The amount that a value says, if it says one.
pub fn amount(s: &[u8], q: usize, e: usize) -> Option<Amount>
    requires fact_1 { q < e }
    requires fact_2 { e ≤ length s.now }
    ensures small { Small result }
    ensures tells { (v : List ℕ) → value (drop q s.now) ≡ ok v (drop e s.now) → amount_of result ≡ whole amount_text v }
{
    let raw = inside(s, q, e);
    money::read(raw)
}

// The number of the currency that a value says, 0 if it says none.
pub fn currency(s: &[u8], q: usize, e: usize) -> u64
    requires fact_1 { q < e }
    requires fact_2 { e ≤ length s.now }
    ensures { (v : List ℕ) → value (drop q s.now) ≡ ok v (drop e s.now) → result ≡ code_of v }
{
    let raw = inside(s, q, e);
    money::code(raw)
}

// VALUE, unless a text is of its form.
fn value_unless(good: bool) -> Result<(), Refusal>
    ensures { fault_of result ≡ first_of (VALUE when not good) }
{
    refused_if(Refusal::Value, !good)
}

// Whether a value says an amount.
fn is_amount(s: &[u8], q: usize, e: usize) -> bool
    requires fact_1 { q < e }
    requires fact_2 { e ≤ length s.now }
    ensures { (v : List ℕ) → value (drop q s.now) ≡ ok v (drop e s.now) → result ≡ is_some (whole amount_text v) }
{
    amount(s, q, e).is_some()
}

// The refusal of a value that is to be a timestamp.
fn timestamp_fault(s: &[u8], q: usize, e: usize, shift: Shift) -> Result<(), Refusal>
    requires fact_1 { q < e }
    requires fact_2 { e ≤ length s.now }
    ensures { (v : List ℕ) → value (drop q s.now) ≡ ok v (drop e s.now) → fault_of result ≡ first_of (faults_of (read_timestamp shift.minutes v)) }
{
    let Err(refusal) = moment(s, q, e, shift) else {
        return Ok(());
    };
    Err(refusal)
}

// The refusal of a value that is to be of a form.
pub fn fault(s: &[u8], q: usize, e: usize, form: Form, shift: Shift) -> Result<(), Refusal>
    requires fact_1 { q < e }
    requires fact_2 { e ≤ length s.now }
    ensures { (v : List ℕ) → value (drop q s.now) ≡ ok v (drop e s.now) → fault_of result ≡ first_of (form_faults shift.minutes (form_of form) v) }
{
    let raw = inside(s, q, e);
    match form {
        Form::AnyText => Ok(()),
        Form::NonEmpty => value_unless(!element::value::is_empty(s, q)),
        Form::Flavor => value_unless(fixed::is_flavor(s, q)),
        Form::Timestamp => timestamp_fault(s, q, e, shift),
        Form::Flag => value_unless(fixed::is_flag(s, q)),
        Form::Amount => value_unless(is_amount(s, q, e)),
        Form::Currency => value_unless(money::is_currency(raw)),
        Form::Root => value_unless(oid::is_root(raw)),
        Form::PartType => value_unless(fixed::is_part_type(s, q)),
        Form::Qualifiers => value_unless(name::is_qualifiers(raw)),
    }
}
