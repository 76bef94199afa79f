// Texts for a person. Each promises a frame: what stands before it stays, and how long it is at most.
#![tactic(auto)]

ghost use Rattle.std.specs.Prelude.{◌+◌, ◌*◌, max, length};
ghost use Rattle.lent.specs.Put.{Puts};
ghost use Rattle.console_text.specs.Frame.{Frame};
ghost use Rattle.console_form.specs.Lines.{valid_line, seconds_line};

use console_text::decimal::put_padded;
use console_text::fraction::put_nine_decimals;
use lent::Page;

pub fn put_text(page: &mut Page, text: &[u8])
    ensures { Frame (length text.now) page.old page.new }
{
    page.put(text);
}

// Puts one of two texts.
pub fn put_either(page: &mut Page, first: bool, one: &[u8], other: &[u8])
    ensures { Frame (max (length one.now) (length other.now)) page.old page.new }
{
    put_text(page, if first { one } else { other });
}

// Puts a form with numbers in it: each run of `#` is the place of the next number, which ends where the run ends, or
// further on where it has more digits. A place counts up to ten wide.
pub fn put_form(page: &mut Page, form: &[u8], numbers: &[u32])
    ensures { Frame (length form.now + 10 * length numbers.now) page.old page.new }
{
    let mut rest = form;
    for n in numbers {
        let begin = rest.iter().take_while(|byte| **byte != b'#').count();
        let (text, place_on) = rest.split_at(begin);
        let width = place_on.iter().take_while(|byte| **byte == b'#').count();
        page.put(text);
        put_padded(page, *n, width);
        rest = &place_on[width..];
    }
    page.put(rest);
}

pub fn put_valid(page: &mut Page, valid: bool)
    ensures put { Puts (valid_line valid) page.old page.new }
    ensures frame { Frame 44 page.old page.new }
{
    if valid {
        page.put(b"state     valid\n");
    } else {
        page.put(b"state     not valid: calls refuse it with 1\n");
    }
}

// A number of ticks in seconds, after ten bytes that name it.
pub fn put_seconds(page: &mut Page, name: &[u8; 10], ticks: u32)
    ensures put { Puts (seconds_line name.now ticks) page.old page.new }
    ensures frame { Frame 33 page.old page.new }
{
    page.put(name);
    put_nine_decimals(page, ticks);
    page.put(b" s\n");
}
