// Fourteen digits, the usual timestamp, read eight bytes at a time.
ghost use Rattle.timestamp.specs.Written.{FourteenOf};

use text::words;

// The numbers of a date and a clock.
#[derive(Clone, Copy)]
pub struct Numbers {
    pub year: u64,
    pub month: u64,
    pub day: u64,
    pub hour: u64,
    pub minute: u64,
    pub second: u64,
}

// Reads a text that is fourteen digits. Two digits 0 after the clock fill its word up to eight bytes.
pub fn read(s: &[u8]) -> Option<Numbers>
    ensures { FourteenOf s.now result }
{
    if s.len() != 14 {
        return None;
    }
    let date = words::four(s, 0) + 0x1_0000_0000 * words::four(s, 4);
    let (century, rest, month, day) = words::read_pairs(date)?;
    let clock = words::four(s, 8) + 0x1_0000_0000 * (words::two(s, 12) + 0x3030_0000);
    let (hour, minute, second, _) = words::read_pairs(clock)?;
    Some(Numbers {
        year: 100 * century + rest,
        month,
        day,
        hour,
        minute,
        second,
    })
}
