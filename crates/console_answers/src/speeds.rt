// `speed`, with two words for no speed.
ghost use Rattle.std.specs.Prelude.{◌≤◌, ◌≡◌, length};
ghost use Rattle.lent.specs.Put.{Puts};
ghost use Rattle.console_answers.specs.Texts.{speed_by, speed_line, speed_most};

use console_outcome::print::put_line;
use lent::{Page, value};
use rules::{Refusal, Speed};

fn speed_by(values: &[u32]) -> Result<Speed, Refusal>
    ensures { result ≡ speed_by values.now }
{
    speed::speed(value(values, 0), value(values, 1), value(values, 2))
}

#[tactic(auto, unfolding(crate::specs::Texts::speed_line))]
fn put_answer(page: &mut Page, speed: Result<Speed, Refusal>)
    ensures { Puts (speed_line speed) page.old page.new }
{
    match speed {
        Ok(Speed::Stopped) => page.put(b"0 stopped\n"),
        Ok(Speed::TooFast) => page.put(b"0 too fast\n"),
        Ok(Speed::Rpm(rpm)) => put_line(page, &[0, rpm], false, None),
        Err(refusal) => put_line(page, &[u32::from(refusal.number()), 0], false, None),
    }
}

pub fn put_speed(page: &mut Page, values: &[u32])
    ensures put { Puts (speed_line (speed_by values.now)) page.old page.new }
    ensures values_len_bound { length (speed_line (speed_by values.now)) ≤ speed_most }
{
    put_answer(page, speed_by(values));
}
