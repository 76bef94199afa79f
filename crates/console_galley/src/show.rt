// `gshow`: the galley for a person to read. Each text promises a frame: what stands before it stays, and how long it is at most.
ghost use Rattle.console_text.specs.Frame.{Frame};

use console_form::{put_either, put_form, put_text};
use console_text::signed::put_signed_eighths;
use galley_rows::valid::valid;
use galley_rules::Galley;
use lent::Page;

// A temperature in degrees, after fourteen bytes that name it.
fn put_temperature(page: &mut Page, name: &[u8; 14], eighths: i16)
    ensures { Frame 39 page.old page.new }
{
    put_text(page, name);
    put_signed_eighths(page, i32::from(eighths));
    put_text(page, b" C\n");
}

// The row, and the degrees that it stands for: row 0 is all below 18, row 47 all from 110 on, and each between them two degrees.
fn put_row(page: &mut Page, row: u8)
    ensures { Frame 58 page.old page.new }
{
    let number = u32::from(row);
    match row {
        0 => put_text(page, b"row           0, below 18 C\n"),
        1..=46 => put_form(
            page,
            b"row           #, # C to # C\n",
            &[number, 16 + 2 * number, 18 + 2 * number],
        ),
        47 => put_text(page, b"row           47, 110 C and above\n"),
        _ => put_form(page, b"row           #, which no table has\n", &[number]),
    }
}

fn put_thresholds(page: &mut Page, galley: Galley)
    ensures { Frame 78 page.old page.new }
{
    put_temperature(page, b"ALERT above   ", galley.high);
    put_temperature(page, b"SHDN above    ", galley.over);
}

fn put_flags(page: &mut Page, galley: Galley)
    ensures { Frame 39 page.old page.new }
{
    put_either(
        page,
        galley.hysteresis,
        b"hysteresis    4 C\n",
        b"hysteresis    2 C\n",
    );
    put_either(
        page,
        galley.quiet,
        b"table         quiet\n",
        b"table         normal\n",
    );
}

// Whether the galley is valid, its temperature and its row.
fn put_sample(page: &mut Page, galley: Galley)
    ensures { Frame 145 page.old page.new }
{
    put_either(
        page,
        valid(galley),
        b"galley        valid\n",
        b"galley        not valid: calls refuse it with 1\n",
    );
    put_temperature(page, b"temperature   ", galley.temperature);
    put_row(page, galley.row);
}

// The whole galley: its last sample, its thresholds, its hysteresis and the table in force.
pub fn put_galley(page: &mut Page, galley: Galley)
    ensures { Frame 262 page.old page.new }
{
    put_sample(page, galley);
    put_thresholds(page, galley);
    put_flags(page, galley);
}
