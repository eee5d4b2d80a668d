// Amounts of money and their currencies.
ghost use Rattle.std.specs.Prelude.{◌≡◌};
ghost use Rattle.rules.specs.Basics.{is_from};
ghost use Rattle.rules.specs.Parsers.{whole};
ghost use Rattle.rules.specs.Forms.{amount_text, is_currency};
ghost use Rattle.form.specs.Amounts.{amount_of, code_of, Small, SignAt};

use text::digits;

// An amount in ten-thousandths, with its sign.
#[derive(Clone, Copy)]
pub struct Amount {
    pub negative: bool,
    pub value: u64,
}

// Where the digits of an amount begin: past the sign, if there is one.
fn sign_end(t: &[u8]) -> usize
    ensures { SignAt t.now result }
{
    if t.len() == 0 {
        return 0;
    }
    if t[0] == b'-' { 1 } else { 0 }
}

// The amount that a text is, if it is one.
pub fn read(t: &[u8]) -> Option<Amount>
    ensures small { Small result }
    ensures tells { amount_of result ≡ whole amount_text t.now }
{
    let at = sign_end(t);
    let n = digits::count(t, at, 12);
    if n == 0 {
        return None;
    }
    let units = digits::value(t, at, n);
    let fraction = digits::read_fraction(t, at + n);
    if fraction.end != t.len() {
        return None;
    }
    Some(Amount {
        negative: at == 1,
        value: units * 10_000 + fraction.value,
    })
}

// Whether a byte is a capital A-Z.
fn is_capital(c: u8) -> bool
    ensures { result ≡ is_from 65 90 c }
{
    c.is_ascii_uppercase()
}

// Whether a text is a currency: three capitals.
pub fn is_currency(t: &[u8]) -> bool
    ensures { result ≡ is_currency t.now }
{
    if t.len() != 3 {
        return false;
    }
    is_capital(t[0]) & is_capital(t[1]) & is_capital(t[2])
}

// The number of a currency: its letters, the first in the lowest byte; 0 for a text that is none.
pub fn code(t: &[u8]) -> u64
    ensures { result ≡ code_of t.now }
{
    if !is_currency(t) {
        return 0;
    }
    (t[0] as u64) + 256 * (t[1] as u64) + 65_536 * (t[2] as u64)
}
