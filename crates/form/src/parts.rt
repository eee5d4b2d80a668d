// The parts of a text between the bytes of one kind.
ghost use Rattle.std.specs.Prelude.{◌≡◌, Bool, List, ℕ, ◌≤◌, length};
ghost use Rattle.rules.specs.Basics.{exists, every, same, split, words};
ghost use Rattle.form.specs.Parted.{PartAt};

// Where the part that begins at a position ends: at the first byte b from there on, or at the end of the text.
pub fn part_end(t: &[u8], from: usize, b: u8) -> usize
    requires { from ≤ length t.now }
    ensures { PartAt b t.now from result }
{
    for i in from..t.len() {
        if t[i] == b {
            return i;
        }
    }
    t.len()
}

// Whether a text is one of the words of a list, which single spaces part.
pub fn is_word(w: &[u8], list: &[u8]) -> bool
    ensures { result ≡ exists (same w.now) (words list.now) }
{
    let mut from = 0;
    loop {
        let end = part_end(list, from, b' ');
        if text::is_same(w, &list[from..end]) {
            return true;
        }
        if end == list.len() {
            return false;
        }
        from = end + 1;
    }
}

// Whether each of the parts between the bytes b passes a test.
pub fn are_parts<F: Fn(&[u8]) -> bool>(t: &[u8], b: u8, passes: F) -> bool
    requires { F.IsAlwaysCallable passes }
    ensures { (p : List ℕ → Bool) → ((x : _) (r : Bool) → F.post passes x r → r ≡ p x.now) → result ≡ every p (split b t.now) }
{
    let mut from = 0;
    loop {
        let end = part_end(t, from, b);
        if !passes(&t[from..end]) {
            return false;
        }
        if end == t.len() {
            return true;
        }
        from = end + 1;
    }
}
