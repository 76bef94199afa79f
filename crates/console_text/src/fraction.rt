// An f64 that counts 512ths, with nine decimals, which is what a 512th needs: 1/512 is 0.001953125. One that counts eighths, with
// three: 1/8 is 0.125.
ghost use Rattle.std.specs.Prelude.{◌≡◌, ◌∷◌, ◌++◌};
ghost use Rattle.lent.specs.Put.{Puts};
ghost use Rattle.console_text.specs.Decimal.{digits_of, decimal_of};
ghost use Rattle.console_text.specs.Fraction.{parts_of, nine_decimals, three_decimals, eighths_text};

use crate::decimal::{put_decimal, put_digits};
use crate::signed::put_sign;
use lent::Page;

// How many 512ths an f64 has, found bit by bit: a cast would ask that the f64 is known to be a whole number.
pub fn parts(x: f64) -> u32
    ensures { result ≡ parts_of x }
{
    let mut n = 0;
    for bit in (0..32u32).rev() {
        let more = n + (1u32 << bit);
        if f64::from(more) / 512.0 <= x {
            n = more;
        }
    }
    n
}

// Puts a whole number, a point, and so many decimals.
fn put_point(page: &mut Page, whole: u32, decimals: u32, places: u32)
    ensures { Puts (decimal_of whole ++ 46 ∷ digits_of places decimals) page.old page.new }
{
    put_decimal(page, whole);
    page.put(b".");
    put_digits(page, decimals, places);
}

// Puts a number of 512ths in decimal, with nine decimals.
#[tactic(auto, unfolding(crate::specs::Fraction::nine_decimals))]
pub fn put_nine_decimals(page: &mut Page, n: u32)
    ensures { Puts (nine_decimals n) page.old page.new }
{
    put_point(page, n / 512, n % 512 * 1953125, 9);
}

// The same of an f64.
pub fn put_512ths(page: &mut Page, x: f64)
    ensures { Puts (nine_decimals (parts_of x)) page.old page.new }
{
    put_nine_decimals(page, parts(x));
}

// Puts a number of eighths in decimal, with three decimals.
#[tactic(auto, unfolding(crate::specs::Fraction::three_decimals))]
pub fn put_eighths(page: &mut Page, n: u32)
    ensures { Puts (three_decimals n) page.old page.new }
{
    put_point(page, n / 8, n % 8 * 125, 3);
}

// Puts an f64 that counts eighths, with `-` before it where it is below 0.
pub fn put_8ths(page: &mut Page, x: f64)
    ensures { Puts (eighths_text x) page.old page.new }
{
    let below = x < 0.0;
    put_sign(page, below);
    put_eighths(page, parts(if below { -x } else { x }) / 64);
}
