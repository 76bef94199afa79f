// A word as a number: decimal, or hexadecimal after `0x`.
ghost use Rattle.std.specs.Prelude.{◌≡◌, ◌≤◌, ◌<◌, IfSome};
ghost use Rattle.console_text.specs.Number.{digit_in, in_base, number_of};

// Why a word is no number.
#[derive(Clone, Copy, Debug, PartialEq, Eq)]
pub enum NumberError {
    // Digits, and nothing else, of a number above 4,294,967,295.
    TooLarge,
    NotNumber,
}

// The first number above those of 32 bits.
const LIMIT: u64 = 0x1_0000_0000;

// The hexadecimal digit that a byte is.
pub fn digit(byte: u8) -> Option<u32>
    ensures value { result ≡ digit_in byte }
    ensures below { IfSome result (λ digit. digit < 16) }
{
    char::from(byte).to_digit(16)
}

// The number that bytes spell in a base. A number that has passed the limit is held at it, so that no sum overflows, however
// many digits come.
pub(crate) fn in_base(text: &[u8], base: u32) -> Result<u32, NumberError>
    requires { (1 ≤ base) × (base ≤ 16) }
    ensures { result ≡ in_base base text.now }
{
    if text.is_empty() {
        return Err(NumberError::NotNumber);
    }
    let mut number = 0;
    for byte in text {
        let digit = match digit(*byte) {
            Some(digit) if digit < base => digit,
            _ => return Err(NumberError::NotNumber),
        };
        number = (number * u64::from(base) + u64::from(digit)).min(LIMIT);
    }
    u32::try_from(number).map_err(|_| NumberError::TooLarge)
}

// What a word is as a number.
#[tactic(auto, unfolding(crate::specs::Number::number_of, crate::specs::Number::prefixed))]
pub fn parse(text: &[u8]) -> Result<u32, NumberError>
    ensures { result ≡ number_of text.now }
{
    match text {
        [b'0', b'x' | b'X', digits @ ..] => in_base(digits, 16),
        _ => in_base(text, 10),
    }
}
