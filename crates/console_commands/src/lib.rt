// A line's words as a command: which one it is, its numbers and its bytes. specs/ says what they mean.
#![tactic(auto)]

pub mod kinds;
mod reading;
mod word;

ghost use Rattle.std.specs.Prelude.{◌≡◌, replicate};
ghost use Rattle.std.proofs.lemmas.List.Edits.{sets};
ghost use Rattle.numbers.specs.Numbers.{number_count};
ghost use Rattle.console_text.specs.Words.{words_of};
ghost use Rattle.console_commands.specs.Commands.{line_bytes, parsed_of, values_of, bytes_of};

use console_table::Request;
use lent::Page;
use numbers::STATE_NUMBERS;
use strings::Kind;

// The most bytes that the bytes parameters of a line have together: two digits a byte, in a line of 4,096 bytes.
pub const LINE_BYTES: usize = 2048;

// Why a line is no call. A word is counted from 1.
#[derive(Clone, Copy, Debug, PartialEq, Eq)]
pub enum Reason {
    UnknownCommand,
    // The place of the command in the table.
    WordCount(usize),
    NotNumber(u32),
    // The word, and the largest number that it may be.
    TooLarge(u32, u32),
    // The word, and the largest number that it may be: the smallest is one further from 0.
    TooSmall(u32, u32),
    NotBytes(u32),
    // What is to be encoded is no call that has a kind.
    NoRecord,
    LineTooLong,
}

// What a line asks for, or the kind of the record that it asks for.
#[derive(Clone, Copy)]
pub enum Parsed {
    For(Request),
    Encode(Kind),
}

// What the parameters of a line hand over: the numbers, of a signed one its 32 bits, and how many bytes each bytes parameter has;
// and the bytes of all of them, one after the other. What a line does not fill stays.
#[derive(Drop)]
pub struct Arguments {
    pub values: [u32; STATE_NUMBERS],
    pub bytes: [u8; LINE_BYTES],
}

// By hand, since an array of more than 32 has no `Default` that a derive could use.
impl Default for Arguments {
    ghost is_default = { λ arguments. (arguments.values ≡ replicate number_count 0) × (arguments.bytes ≡ replicate line_bytes 0) };

    fn default() -> Arguments {
        Arguments {
            values: [0; STATE_NUMBERS],
            bytes: [0; LINE_BYTES],
        }
    }
}

// What a line is, with what its parameters hand over.
pub fn parse_line(line: &[u8], arguments: &mut Arguments) -> Result<Parsed, Reason>
    ensures value { result ≡ parsed_of (words_of line.now) }
    ensures values_after { arguments.new.values ≡ sets arguments.old.values 0 (values_of (words_of line.now)) }
    ensures bytes_after { arguments.new.bytes ≡ sets arguments.old.bytes 0 (bytes_of (words_of line.now)) }
{
    let reading = reading::Reading::of_line(line)?;
    if !reading.is_counted() {
        return Err(Reason::WordCount(reading.place));
    }
    let mut page = Page {
        bytes: &mut arguments.bytes,
        at: 0,
    };
    reading.put_strings(&mut page);
    reading.take_values(&mut arguments.values)?;
    Ok(reading.parsed)
}
