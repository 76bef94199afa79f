// A word of a line: where it stands, and what it hands over as one of a command's parameters.
ghost use Rattle.std.specs.Prelude.{◌≡◌};
ghost use Rattle.lent.specs.Put.{Puts};
ghost use Rattle.console_text.specs.Number.{number_of};
ghost use Rattle.console_text.specs.Signed.{signed_of};
ghost use Rattle.console_text.specs.Words.{words_of};
ghost use Rattle.console_hex.specs.Bytes.{bytes_of as spelled_by, count_of};
ghost use Rattle.console_commands.specs.Commands.{value_by, signed_by, count_by, value_of, bytes_as};
ghost use Rattle.console_commands.specs.Steps.{words_split, kind_in};

use crate::{LINE_BYTES, Reason};
use console_hex::{count_bytes, take_bytes};
use console_table::{Asks, LARGEST, Parameter, Request};
use console_text::line::next_word;
use console_text::number::{NumberError, parse};
use console_text::signed::{Signed, SignedError, parse_signed};
use lent::Page;
use strings::Kind;

// The first word of a line, and the line after it.
pub(crate) fn split_word(line: &[u8]) -> Option<(&[u8], &[u8])>
    ensures { words_of line.now ≡ words_split result }
{
    let word = next_word(line, 0)?;
    Some((&line[word.begin..word.end], &line[word.end..]))
}

// A word as a number up to a limit. Its place among the words is counted from 1, the line's first among them.
fn limited(word: &[u8], most: u32, place: u32) -> Result<u32, Reason>
    ensures { result ≡ value_by most place (number_of word.now) }
{
    match parse(word) {
        Ok(n) if n <= most => Ok(n),
        Err(NumberError::NotNumber) => Err(Reason::NotNumber(place)),
        _ => Err(Reason::TooLarge(place, most)),
    }
}

// A word as the 32 bits of a signed number up to a limit, and down to one further below 0.
fn ranged(word: &[u8], most: u32, place: u32) -> Result<u32, Reason>
    ensures { result ≡ signed_by most place (signed_of word.now) }
{
    match parse_signed(word) {
        Ok(Signed::Plus(n)) if n <= most => Ok(n),
        Ok(Signed::Minus(n)) if n <= most => Ok(LARGEST - n),
        Ok(Signed::Plus(_)) | Err(SignedError::TooLarge) => Err(Reason::TooLarge(place, most)),
        Ok(Signed::Minus(_)) | Err(SignedError::TooSmall) => Err(Reason::TooSmall(place, most)),
        Err(SignedError::NotSigned) => Err(Reason::NotNumber(place)),
    }
}

// How many bytes a word is. A line that has more of them than a line can have is too long.
fn counted(word: &[u8], place: u32) -> Result<u32, Reason>
    ensures { result ≡ count_by place (count_of (spelled_by word.now)) }
{
    match count_bytes(word) {
        Some(count) if count <= LINE_BYTES => Ok(count as u32),
        Some(_) => Err(Reason::LineTooLong),
        None => Err(Reason::NotBytes(place)),
    }
}

// What a word hands over as a parameter.
#[tactic(auto, unfolding(crate::specs::Commands::value_of))]
pub(crate) fn taken(word: &[u8], parameter: Parameter, place: u32) -> Result<u32, Reason>
    ensures { result ≡ value_of parameter place word.now }
{
    match parameter {
        Parameter::Number(most) => limited(word, most, place),
        Parameter::Signed(most) => ranged(word, most, place),
        Parameter::Bytes => counted(word, place),
    }
}

// Puts the bytes of one parameter.
pub(crate) fn put_parameter(page: &mut Page, word: &[u8], parameter: Parameter)
    ensures { Puts (bytes_as parameter word.now) page.old page.new }
{
    if let Parameter::Bytes = parameter {
        take_bytes(page, word);
    }
}

// The kind of the call that is asked for, if it has one.
pub(crate) fn kind_in(asks: Asks) -> Option<Kind>
    ensures { result ≡ kind_in asks }
{
    match asks {
        Asks::For(Request::Call(kind)) => Some(kind),
        _ => None,
    }
}
