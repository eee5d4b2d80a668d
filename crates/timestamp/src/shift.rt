// The agreed offset, as it is added to a time.
ghost use Rattle.std.specs.Prelude.{◌≤◌};

// 840 less the agreed offset in minutes: what is added to a time that has no offset of its own.
#[derive(Clone, Copy)]
pub struct Shift {
    pub minutes: u64,
    pub ghost small: { minutes ≤ 1680 },
}
