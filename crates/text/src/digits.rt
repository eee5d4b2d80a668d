// Digits, and the number that they write.
ghost use Rattle.std.specs.Prelude.{◌≡◌, true, ◌+◌, ◌-◌, ◌*◌, ◌^◌, ◌≤◌, ◌<◌, length, take, drop};
ghost use Rattle.rules.specs.Basics.{every, is_digit, decimal};
ghost use Rattle.text.specs.Numbers.{Counted, NumberAt, FractionAt};

// Whether a byte is a digit.
pub fn is_digit(b: u8) -> bool
    ensures { result ≡ is_digit b }
{
    b.is_ascii_digit()
}

// How many digits stand at a position, as far as `most`.
pub fn count(s: &[u8], at: usize, most: usize) -> usize
    requires { at ≤ length s.now }
    ensures { Counted s.now at most result }
{
    for n in 0..most {
        if s.len() - at <= n {
            return n;
        }
        if !is_digit(s[at + n]) {
            return n;
        }
    }
    most
}

// The number that the n digits at a position write.
pub fn value(s: &[u8], at: usize, n: usize) -> u64
    requires fact_1 { n ≤ 18 }
    requires fact_2 { at + n ≤ length s.now }
    requires fact_3 { every is_digit (take n (drop at s.now)) ≡ true }
    ensures { result ≡ decimal (take n (drop at s.now)) }
{
    let mut total: u64 = 0;
    for k in 0..n {
        total = total * 10 + (s[at + k] - 48) as u64;
    }
    total
}

// The number that exactly n digits at a position write, if there are as many; what follows them is not looked at.
pub fn read(s: &[u8], at: usize, n: usize) -> Option<u64>
    requires fact_1 { n ≤ 18 }
    requires fact_2 { at ≤ length s.now }
    ensures { NumberAt s.now at n result }
{
    if s.len() - at < n {
        return None;
    }
    let mut total: u64 = 0;
    for k in 0..n {
        let b = s[at + k];
        if !is_digit(b) {
            return None;
        }
        total = total * 10 + (b as u64) - 48;
    }
    Some(total)
}

// The digits after a point: their number in ten-thousandths, and their count, 0 if there is no point with digits; `end` is past them.
#[derive(Clone, Copy)]
pub struct Fraction {
    pub value: u64,
    pub count: usize,
    pub end: usize,
}

// A number of so many digits after a point, in ten-thousandths.
fn ten_thousandths(value: u64, count: usize) -> u64
    requires fact_1 { 1 ≤ count }
    requires fact_2 { count ≤ 4 }
    requires fact_3 { value < 10 ^ count }
    ensures { (result ≡ value * 10 ^ (4 - count)) × (result < 10_000) }
{
    match count {
        1 => value * 1_000,
        2 => value * 100,
        3 => value * 10,
        _ => value,
    }
}

// A point and one to four digits, or none.
pub fn read_fraction(s: &[u8], at: usize) -> Fraction
    requires { at ≤ length s.now }
    ensures { FractionAt s.now at result }
{
    let none = Fraction {
        value: 0,
        count: 0,
        end: at,
    };
    if s.len() <= at {
        return none;
    }
    if s[at] != 46 {
        return none;
    }
    let n = count(s, at + 1, 4);
    if n == 0 {
        return none;
    }
    Fraction {
        value: ten_thousandths(value(s, at + 1, n), n),
        count: n,
        end: at + 1 + n,
    }
}
