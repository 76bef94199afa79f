// `gread`: the temperature in degrees, printed from its f64.
ghost use Rattle.std.specs.Prelude.{◌≤◌, length};
ghost use Rattle.galley_rules.specs.Degrees.{degrees_read};
ghost use Rattle.lent.specs.Put.{Puts};
ghost use Rattle.console_galley.specs.Commands.{degrees_text, degrees_line, degrees_most};

use console_text::decimal::put_decimal;
use console_text::fraction::put_8ths;
use galley_rules::Galley;
use lent::Page;

// By the number that is printed, as `degrees_text` has it.
fn put_answer(page: &mut Page, refusal: u32, degrees: f64)
    ensures { Puts (degrees_text refusal degrees) page.old page.new }
{
    put_decimal(page, refusal);
    page.put(b" ");
    put_8ths(page, degrees);
    page.put(b"\n");
}

pub fn put_degrees(page: &mut Page, galley: Galley)
    ensures put { Puts (degrees_line (degrees_read galley)) page.old page.new }
    ensures galley_len_bound { length (degrees_line (degrees_read galley)) ≤ degrees_most }
{
    match galley::degrees(galley) {
        Ok(degrees) => put_answer(page, 0, degrees),
        Err(refusal) => put_answer(page, u32::from(refusal.number()), 0.0),
    }
}
