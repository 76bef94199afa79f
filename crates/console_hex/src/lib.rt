// A word as bytes, and bytes back to text: hexadecimal digits in pairs.
#![tactic(auto)]

ghost use Rattle.std.specs.Prelude.{◌≡◌, ◌<◌, ltb, unwrap_or};
ghost use Rattle.lent.specs.Put.{Puts};
ghost use Rattle.console_text.specs.Number.{digit_of, digit_in, are_digits};
ghost use Rattle.console_hex.specs.Bytes.{hex_digit, hex_pairs, hex_of, are_pairs, bytes_of, count_of, list_of};

use console_text::number::digit;
use lent::Page;

// The hexadecimal digit of a number below 16, in small letters.
#[tactic(auto, unfolding(crate::specs::Bytes::hex_digit))]
fn hex_digit(n: u8) -> u8
    requires { n < 16 }
    ensures { result ≡ hex_digit n }
{
    if n < 10 { b'0' + n } else { b'a' - 10 + n }
}

fn put_pairs(page: &mut Page, bytes: &[u8])
    ensures { Puts (hex_pairs bytes.now) page.old page.new }
{
    for byte in bytes {
        page.put(&[hex_digit(*byte / 16), hex_digit(*byte % 16)]);
    }
}

// Puts bytes as text: `-` where there are none.
pub fn put_bytes(page: &mut Page, bytes: &[u8])
    ensures { Puts (hex_of bytes.now) page.old page.new }
{
    if bytes.is_empty() {
        page.put(b"-");
    } else {
        put_pairs(page, bytes);
    }
}

#[tactic(auto, unfolding(console_text::specs::Number::digit_in))]
fn is_digit(byte: u8) -> bool
    ensures { result ≡ ltb (digit_of byte) 16 }
{
    digit(byte).is_some()
}

#[tactic(auto, unfolding(console_text::specs::Number::are_digits))]
fn are_digits(word: &[u8]) -> bool
    ensures { result ≡ are_digits 16 word.now }
{
    word.iter().all(|byte| is_digit(*byte))
}

#[tactic(auto, unfolding(crate::specs::Bytes::are_pairs))]
fn are_pairs(word: &[u8]) -> bool
    ensures { result ≡ are_pairs word.now }
{
    word.len() % 2 == 0 && are_digits(word)
}

// How many bytes a word is.
#[tactic(auto, unfolding(crate::specs::Bytes::bytes_of, crate::specs::Bytes::is_dash))]
pub fn count_bytes(word: &[u8]) -> Option<usize>
    ensures { result ≡ count_of (bytes_of word.now) }
{
    match word {
        _ if are_pairs(word) => Some(word.len() / 2),
        [b'-'] => Some(0),
        _ => None,
    }
}

// The number that a digit is, and 0 of what is none.
fn value(byte: u8) -> u8
    ensures value { result ≡ unwrap_or (digit_in byte) 0 }
    ensures small { result < 16 }
{
    digit(byte).unwrap_or(0) as u8
}

// Puts the bytes that a word spells; nothing of a word that is no bytes.
pub fn take_bytes(page: &mut Page, word: &[u8])
    ensures { Puts (list_of (bytes_of word.now)) page.old page.new }
{
    if !are_pairs(word) {
        return;
    }
    for [high, low] in word.as_chunks::<2>().0 {
        page.put(&[value(*high) * 16 + value(*low)]);
    }
}
