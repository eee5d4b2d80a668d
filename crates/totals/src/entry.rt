// What a checked record says of money.
ghost use Rattle.std.specs.Prelude.{◌≡◌, ℕ, ◌^◌, ◌<◌, true, List, [], pos};
ghost use Rattle.rules.specs.Markup.{Element};
ghost use Rattle.rules.specs.Types.{MO, has_type};
ghost use Rattle.rules.specs.Judge.{top_faults};
ghost use Rattle.rules.specs.Totals.{entry_of};
ghost use Rattle.rules.specs.TotalNumbers.{total_in};
ghost use Rattle.element.specs.Tags.{TagIn};
ghost use Rattle.form.specs.Amounts.{sign_of};
ghost use Rattle.datatype.specs.Records.{RecordOf};
ghost use Rattle.totals.specs.Readings.{Small, IsMoney, entry_meant};

use datatype::kind::Kind;
use datatype::money::{amount_at, currency_at};
use datatype::record::Record;
use element::name::{CURRENCY, NULL_FLAVOR, VALUE};
use element::tag::has;
use form::money::Amount;

// An amount in two's complement, of a currency.
#[derive(Clone, Copy)]
pub struct Money {
    pub currency: u64,
    pub amount: u64,
}

// Whether a record is an MO.
pub fn is_money(record: Record) -> bool
    ensures { (s : List ℕ) (e : Element) → RecordOf s e «record» → result ≡ has_type e.attrs MO }
{
    record.kind == Kind::Mo
}

// An amount in two's complement.
fn amount_number(negative: bool, value: u64) -> u64
    requires { value < 10 ^ 16 }
    ensures { Small result × (total_in result ≡ sign_of negative (pos value)) }
{
    if negative & (0 < value) {
        return u64::MAX - value + 1;
    }
    value
}

// What an accepted MO says, unless it is a null.
pub fn read(s: &[u8], record: Record) -> Option<Money>
    requires { TagIn s.now «record».tag }
    ensures { (e : Element) (shift : ℕ) → RecordOf s.now e «record» → top_faults shift e ≡ [] → has_type e.attrs MO ≡ true → IsMoney result × (entry_meant result ≡ entry_of e.attrs) }
{
    let tag = record.tag;
    if has(tag, NULL_FLAVOR) {
        return None;
    }
    let Amount { negative, value } = amount_at(s, tag.places[VALUE])?;
    Some(Money {
        currency: currency_at(s, tag.places[CURRENCY]),
        amount: amount_number(negative, value),
    })
}
