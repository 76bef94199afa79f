// `cabin`: the reading, printed from its f64s.
ghost use Rattle.std.specs.Prelude.{◌≤◌, ◌∷◌, length};
ghost use Rattle.rules.specs.Reading.{reading_of};
ghost use Rattle.lent.specs.Put.{Puts};
ghost use Rattle.console_text.specs.Fraction.{parts_of, nine_decimals};
ghost use Rattle.console_answers.specs.Texts.{spaced_parts, reading_text, reading_most, cabin_text, cabin_line, cabin_most};

use console_text::decimal::put_decimal;
use console_text::fraction::put_512ths;
use lent::Page;
use rules::{Reading, State};

// What a refused reading prints.
const NOTHING_READ: Reading = Reading {
    seconds: 0.0,
    shares: [0.0; 6],
};

fn put_part(page: &mut Page, part: f64)
    ensures { Puts (32 ∷ nine_decimals (parts_of part)) page.old page.new }
{
    page.put(b" ");
    put_512ths(page, part);
}

// Six f64s with nine decimals, each after a space.
fn put_parts(page: &mut Page, parts: [f64; 6])
    ensures { Puts (spaced_parts parts) page.old page.new }
{
    for part in parts {
        put_part(page, part);
    }
}

// What was read: seconds and shares, each after a space.
fn put_reading(page: &mut Page, reading: Reading)
    ensures put { Puts (reading_text reading) page.old page.new }
    ensures reading_len_bound { length (reading_text reading) ≤ reading_most }
{
    put_part(page, reading.seconds);
    put_parts(page, reading.shares);
}

// By the number that is printed, as `cabin_text` has it.
fn put_answer(page: &mut Page, refusal: u32, reading: Reading)
    ensures put { Puts (cabin_text refusal reading) page.old page.new }
    ensures reading_len_bound { length (cabin_text refusal reading) ≤ cabin_most }
{
    put_decimal(page, refusal);
    put_reading(page, reading);
    page.put(b"\n");
}

pub fn put_cabin(page: &mut Page, state: State)
    ensures put { Puts (cabin_line (reading_of state)) page.old page.new }
    ensures state_len_bound { length (cabin_line (reading_of state)) ≤ cabin_most }
{
    match reading::reading(state) {
        Ok(reading) => put_answer(page, 0, reading),
        Err(refusal) => put_answer(page, u32::from(refusal.number()), NOTHING_READ),
    }
}
