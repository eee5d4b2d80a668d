// Bytes written into lent memory, one piece after another: each function says where the next piece stands.
#![tactic(auto)]

ghost use Rattle.std.specs.Prelude.{◌≡◌, ◌+◌, ◌<◌, ◌≤◌, length};
ghost use Rattle.rules.specs.Basics.{digits_of};
ghost use Rattle.writer.specs.Placing.{Put};

// Writes bytes at a position.
pub fn put(out: &mut [u8], at: usize, piece: &[u8]) -> usize
    requires { at + length piece.now ≤ length out.old }
    ensures { Put at piece.now out.old result out.new }
{
    let end = at + piece.len();
    out[at..end].copy_from_slice(piece);
    end
}

// Writes a number below 100 as two digits.
pub fn put_pair(out: &mut [u8], at: usize, n: u64) -> usize
    requires fact_1 { at + 2 ≤ length out.old }
    requires fact_2 { n < 100 }
    ensures value { result ≡ at + 2 }
    ensures put { Put at (digits_of 2 n) out.old result out.new }
{
    out[at] = 48 + (n / 10) as u8;
    out[at + 1] = 48 + (n % 10) as u8;
    at + 2
}
