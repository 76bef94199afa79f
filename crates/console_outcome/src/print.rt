// An outcome as a line of text.
ghost use Rattle.std.specs.Prelude.{◌≤◌, false, length};
ghost use Rattle.lent.specs.Put.{Puts};
ghost use Rattle.console_outcome.specs.Outcome.{lent_bytes, told_of, space_after, number_text, numbers_text, end_by, line_by, line_of, line_most};

use crate::outcome::Outcome;
use console_hex::put_bytes;
use console_text::decimal::put_decimal;
use console_text::signed::{integer, put_signed};
use lent::{Page, front};

// A space, where something stands before.
fn put_space(page: &mut Page, begun: bool)
    ensures { Puts (space_after begun) page.old page.new }
{
    if begun {
        page.put(b" ");
    }
}

fn put_number(page: &mut Page, n: u32, signed: bool)
    ensures { Puts (number_text signed n) page.old page.new }
{
    if signed {
        put_signed(page, integer(n));
    } else {
        put_decimal(page, n);
    }
}

// Numbers, with a space before each but the first.
fn put_numbers(page: &mut Page, numbers: &[u32], signed: bool)
    ensures { Puts (numbers_text signed false numbers.now) page.old page.new }
{
    for (i, n) in numbers.iter().enumerate() {
        put_space(page, 0 < i);
        put_number(page, *n, signed);
    }
}

// What comes after the numbers, where there are some, or else the whole line.
fn put_end(page: &mut Page, begun: bool, bytes: Option<&[u8]>)
    ensures { Puts (end_by begun (lent_bytes bytes.entry)) page.old page.new }
{
    match bytes {
        Some(bytes) => {
            put_space(page, begun);
            put_bytes(page, bytes);
            page.put(b"\n");
        }
        None if begun => page.put(b"\n"),
        None => page.put(b"ok\n"),
    }
}

// A line of numbers, as signed ones or not, and of bytes, if any.
pub fn put_line(page: &mut Page, numbers: &[u32], signed: bool, bytes: Option<&[u8]>)
    ensures { Puts (line_by signed numbers.now (lent_bytes bytes.entry)) page.old page.new }
{
    put_numbers(page, numbers, signed);
    put_end(page, !numbers.is_empty(), bytes);
}

// The line of an outcome whose bytes stand in a buffer.
pub fn put_outcome(page: &mut Page, outcome: Outcome, buffer: &[u8])
    ensures put { Puts (line_of (told_of outcome buffer.now)) page.old page.new }
    ensures buffer_len_bound { length (line_of (told_of outcome buffer.now)) ≤ line_most (length buffer.now) }
{
    let bytes = outcome.bytes.map(|count| front(buffer, count));
    put_line(page, outcome.numbers.as_slice(), outcome.signed, bytes);
}
