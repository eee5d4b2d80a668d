// What the places of a tag say of money: an amount and its currency.
ghost use Rattle.std.specs.Prelude.{◌≡◌, List, ℕ, ◌-◌, ◌≤◌, length};
ghost use Rattle.std.proofs.Math.Option.{Option, none};
ghost use Rattle.rules.specs.Basics.{if_some};
ghost use Rattle.rules.specs.Parsers.{whole};
ghost use Rattle.rules.specs.Forms.{amount_text};
ghost use Rattle.form.specs.Amounts.{amount_of, code_of, Small};
ghost use Rattle.element.specs.Tags.{Place};

use element::value;
use form::money::Amount;

// The amount of the value at a place, if it is one.
pub fn amount_at(s: &[u8], place: usize) -> Option<Amount>
    requires { place ≤ length s.now - 1 }
    ensures small { Small result }
    ensures tells { (o : Option (List ℕ)) → Place s.now o place → amount_of result ≡ if_some o (whole amount_text) none }
{
    if place == 0 {
        return None;
    }
    let end = value::end(s, place);
    form::amount(s, place, end)
}

// The number of the currency at a place, 0 if there is none.
pub fn currency_at(s: &[u8], place: usize) -> u64
    requires { place ≤ length s.now - 1 }
    ensures { (o : Option (List ℕ)) → Place s.now o place → result ≡ if_some o code_of 0 }
{
    if place == 0 {
        return 0;
    }
    let end = value::end(s, place);
    form::currency(s, place, end)
}
