// A number as decimal digits.
ghost use Rattle.std.specs.Prelude.{◌≡◌, ◌≤◌, min, length, drop};
ghost use Rattle.lent.specs.Put.{Puts};
ghost use Rattle.console_text.specs.Decimal.{digits_of, decimal_of, padded};

use lent::Page;

// Puts a number's digits at the end of ten bytes, and gives the index of the first.
fn spell(n: u32, least: u32, digits: &mut [u8; 10]) -> usize
    ensures { (result ≤ 10) × (drop result digits.new ≡ digits_of least n) }
{
    let mut rest = n;
    let mut owed = least;
    for place in (0..10).rev() {
        if (rest == 0) & (owed == 0) {
            return place + 1;
        }
        digits[place] = b'0' + (rest % 10) as u8;
        rest /= 10;
        owed = owed.saturating_sub(1);
    }
    0
}

// Puts a number's digits, with zeros in front up to `least` digits, ten at most.
pub fn put_digits(page: &mut Page, n: u32, least: u32)
    ensures { Puts (digits_of least n) page.old page.new }
{
    let mut digits = [0; 10];
    let from = spell(n, least, &mut digits);
    page.put(&digits[from..]);
}

// Puts a number with as few digits as it needs.
pub fn put_decimal(page: &mut Page, n: u32)
    ensures { Puts (decimal_of n) page.old page.new }
{
    put_digits(page, n, 1);
}

// Puts a number with spaces in front of it up to so many places, ten at most.
pub fn put_padded(page: &mut Page, n: u32, places: usize)
    ensures { Puts (padded (min places 10) n) page.old page.new }
{
    let mut bytes = [0; 10];
    let from = spell(n, 1, &mut bytes);
    let digits = &bytes[from..];
    page.put(&[b' '; 10][..places.min(10).saturating_sub(digits.len())]);
    page.put(digits);
}
