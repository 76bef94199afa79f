// What a command makes of what is in hand: what is in hand then, and what is printed, its bytes in a lent buffer.
ghost use Rattle.std.specs.Prelude.{ℕ, ◌≡◌, List, take};
ghost use Rattle.numbers.specs.Numbers.{number_count};
ghost use Rattle.console_outcome.specs.Outcome.{told, tells, part_of, told_of, Tells};

use crate::hand::Hand;
use crate::list::NumberList;

// The bytes of the buffer that a command is lent, and each of them before.
pub const BUFFER_BYTES: usize = 2048;

pub const UNTOUCHED: u8 = 0xA5;

// The numbers are printed, as signed ones or not, and then the bytes, if any: so many from the front of the buffer.
#[derive(Clone, Copy)]
pub struct Outcome {
    pub hand: Hand,
    pub numbers: NumberList,
    pub signed: bool,
    pub bytes: Option<usize>,
}

// Tells numbers, as many as a state has at most, and bytes.
pub fn tell_as(hand: Hand, numbers: &[u32], signed: bool, bytes: Option<usize>) -> Outcome
    ensures { (buffer : List ℕ) → told_of result buffer ≡ told hand signed (take number_count numbers.now) (part_of bytes buffer) }
{
    Outcome {
        hand,
        numbers: NumberList::first_of(numbers),
        signed,
        bytes,
    }
}

// Tells numbers alone.
pub fn tell(hand: Hand, numbers: &[u32]) -> Outcome
    ensures { Tells result (tells hand (take number_count numbers.now)) }
{
    tell_as(hand, numbers, false, None)
}
