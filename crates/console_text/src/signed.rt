// A word as a signed number, its 32 bits as an i32, and an i32 as text.
ghost use Rattle.std.specs.Prelude.{◌≡◌};
ghost use Rattle.lent.specs.Put.{Puts};
ghost use Rattle.console_text.specs.Fraction.{signed_eighths};
ghost use Rattle.console_text.specs.Signed.{unsigned_error, after_sign, signed_of, bits_of, integer_of, short_of, sign_of, signed_decimal};

use crate::decimal::put_decimal;
use crate::fraction::put_eighths;
use crate::number::{NumberError, in_base, parse};
use lent::Page;

// What a word is as a signed number. `Plus(n)` is n, and `Minus(n)` is -(n + 1), so that one bound holds a range: that of an
// i32 is each of the two below 2,147,483,648.
#[derive(Clone, Copy, Debug, PartialEq, Eq)]
pub enum Signed {
    Plus(u32),
    Minus(u32),
}

// Why a word is no signed number.
#[derive(Clone, Copy, Debug, PartialEq, Eq)]
pub enum SignedError {
    // Above what `Plus` holds, and below what `Minus` holds.
    TooLarge,
    TooSmall,
    NotSigned,
}

// Of a number without a sign.
impl From<NumberError> for SignedError {
    ghost from_gives = { λ error r. r ≡ unsigned_error error };

    fn from(error: NumberError) -> SignedError {
        match error {
            NumberError::TooLarge => SignedError::TooLarge,
            NumberError::NotNumber => SignedError::NotSigned,
        }
    }
}

fn after_sign(number: Result<u32, NumberError>) -> Result<Signed, SignedError>
    ensures { result ≡ after_sign number }
{
    match number {
        Ok(0) => Ok(Signed::Plus(0)),
        Ok(n) => Ok(Signed::Minus(n - 1)),
        Err(NumberError::TooLarge) => Err(SignedError::TooSmall),
        Err(NumberError::NotNumber) => Err(SignedError::NotSigned),
    }
}

// What a word is as a signed number: the sign is for decimal digits alone.
#[tactic(auto, unfolding(crate::specs::Signed::signed_of))]
pub fn parse_signed(text: &[u8]) -> Result<Signed, SignedError>
    ensures { result ≡ signed_of text.now }
{
    match text {
        [b'-', digits @ ..] => after_sign(in_base(digits, 10)),
        _ => Ok(Signed::Plus(parse(text)?)),
    }
}

// The signed number that 32 bits are as two's complement.
pub fn integer(bits: u32) -> i32
    ensures { result ≡ integer_of bits }
{
    bits.cast_signed()
}

// The same of the low 16 bits.
pub fn short(bits: u32) -> i16
    ensures { result ≡ short_of bits }
{
    ((bits % 65536) as u16).cast_signed()
}

// The 32 bits of a signed number: its two's complement.
pub fn bits(n: i32) -> u32
    ensures { result ≡ bits_of n }
{
    n.cast_unsigned()
}

// Puts `-` before what is below 0.
pub(crate) fn put_sign(page: &mut Page, below: bool)
    ensures { Puts (sign_of below) page.old page.new }
{
    page.put(if below { b"-" } else { b"" });
}

// Puts a signed number with as few digits as it needs.
pub fn put_signed(page: &mut Page, n: i32)
    ensures { Puts (signed_decimal n) page.old page.new }
{
    put_sign(page, n < 0);
    put_decimal(page, n.unsigned_abs());
}

// Puts a signed number of eighths, with three decimals.
pub fn put_signed_eighths(page: &mut Page, n: i32)
    ensures { Puts (signed_eighths n) page.old page.new }
{
    put_sign(page, n < 0);
    put_eighths(page, n.unsigned_abs());
}
