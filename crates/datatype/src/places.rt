// What an attribute says, by the place of its value.
ghost use Rattle.std.specs.Prelude.{◌≡◌, false, not, List, ℕ, ◌≤◌, length};
ghost use Rattle.std.proofs.Math.Option.{Option};
ghost use Rattle.rules.specs.Basics.{if_some, is_empty, same};
ghost use Rattle.element.specs.Tags.{Place};

use element::value;

// Whether the attribute whose value stands at a place is there, with a given text.
pub fn has_text(s: &[u8], place: usize, text: &[u8]) -> bool
    requires { place ≤ length s.now }
    ensures { (o : Option (List ℕ)) → Place s.now o place → result ≡ if_some o (same text.now) false }
{
    if place == 0 {
        return false;
    }
    value::is(s, place, text)
}

// Whether the attribute whose value stands at a place is there, with a text that is not empty.
pub fn has_some_text(s: &[u8], place: usize) -> bool
    requires { place ≤ length s.now }
    ensures { (o : Option (List ℕ)) → Place s.now o place → result ≡ if_some o (λ t. not (is_empty t)) false }
{
    if place == 0 {
        return false;
    }
    !value::is_empty(s, place)
}
