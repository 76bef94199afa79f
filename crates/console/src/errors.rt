// "`error: line N: REASON`, REASON being a few plain words".
ghost use Rattle.console_text.specs.Frame.{Frame};

use console_commands::Reason;
use console_form::{put_form, put_text};
use console_table::put_usage;
use lent::Page;

fn put_word_count(page: &mut Page, place: usize, line: u32)
    ensures { Frame 110 page.old page.new }
{
    put_form(
        page,
        b"error: line #: wrong number of words, expected: ",
        &[line],
    );
    put_usage(page, place);
    put_text(page, b"\n");
}

// Why a line, counted from 1, is no call. The smallest of the signed numbers is one further from 0 than the largest.
pub fn put_error(page: &mut Page, reason: Reason, line: u32)
    ensures { Frame 110 page.old page.new }
{
    match reason {
        Reason::UnknownCommand => put_form(page, b"error: line #: unknown command\n", &[line]),
        Reason::WordCount(place) => put_word_count(page, place, line),
        Reason::NotNumber(word) => {
            put_form(
                page,
                b"error: line #: word # is not a number\n",
                &[line, word],
            )
        }
        Reason::TooLarge(word, most) => put_form(
            page,
            b"error: line #: word # is too large, at most #\n",
            &[line, word, most],
        ),
        Reason::TooSmall(word, most) => put_form(
            page,
            b"error: line #: word # is too small, at least -#\n",
            &[line, word, most.saturating_add(1)],
        ),
        Reason::NotBytes(word) => {
            put_form(page, b"error: line #: word # is not bytes\n", &[line, word])
        }
        Reason::NoRecord => put_form(
            page,
            b"error: line #: word 2 is no call with a record: write, word, read, ticks, tach, pulse or pin\n",
            &[line],
        ),
        Reason::LineTooLong => put_form(
            page,
            b"error: line #: line too long, at most 4096 bytes\n",
            &[line],
        ),
    }
}
