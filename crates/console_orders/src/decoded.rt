// `decode STRING`: "a line for each record with the index of its first byte and the call in the console's own words, then where
// and with which number the reading stops, or that the string ends there".
ghost use Rattle.std.specs.Prelude.{◌≡◌, ◌+◌, ◌*◌, min, length};
ghost use Rattle.console_text.specs.Frame.{Frame};

use console_form::{put_form, put_text};
use lent::{Page, front, value};
use records::reader::next_at;
use rules::Call;
use strings::StringRefusal;

// An index as a number that can be printed. No line has a string so long that another is meant.
fn index_number(index: usize) -> u32
    ensures { result ≡ min index 4294967295 }
{
    u32::try_from(index).unwrap_or(u32::MAX)
}

// A record: the index of its first byte, and its call.
fn put_record(page: &mut Page, index: u32, call: Call)
    ensures { Frame 42 page.old page.new }
{
    match call {
        Call::Write(address, byte) => {
            put_form(page, b"# write # #\n", &[index, address, u32::from(byte)])
        }
        Call::Read(address) => put_form(page, b"# read #\n", &[index, address]),
        Call::Ticks(ticks) => put_form(page, b"# ticks #\n", &[index, ticks]),
        Call::Tachometer(channel, count) => {
            put_form(page, b"# tach # #\n", &[index, channel, count])
        }
        Call::Pin(high) => put_form(page, b"# pin #\n", &[index, u32::from(high)]),
        Call::WriteWord(address, word) => {
            put_form(page, b"# word # #\n", &[index, address, u32::from(word)])
        }
        Call::Pulse(channel) => put_form(page, b"# pulse #\n", &[index, channel]),
    }
}

fn put_reason(page: &mut Page, refusal: StringRefusal)
    ensures { Frame 38 page.old page.new }
{
    match refusal {
        StringRefusal::StringEnds => put_text(page, b"the string ends within a record\n"),
        StringRefusal::LongForm => put_text(page, b"a number is not in its shortest form\n"),
        StringRefusal::NumberTooLarge => put_text(page, b"a number is above 4,294,967,295\n"),
        StringRefusal::NoRecord => put_text(page, b"no such kind, or a value out of range\n"),
    }
}

// Where the reading stops, and why.
fn put_stop(page: &mut Page, index: u32, refusal: StringRefusal)
    ensures { Frame 71 page.old page.new }
{
    put_form(
        page,
        b"# refused #: ",
        &[index, u32::from(refusal.number())],
    );
    put_reason(page, refusal);
}

// The records of a string, a line each, and a line that says where they end. A record has at least two bytes, and the index goes on where it
// ended, so it is no loop's.
fn put_records(page: &mut Page, string: &[u8])
    ensures { Frame (21 * length string.now + 71) page.old page.new }
{
    let mut index = 0;
    loop {
        match next_at(string, index) {
            Ok(None) => return put_form(page, b"# end\n", &[index_number(index)]),
            Err(refusal) => return put_stop(page, index_number(index), refusal),
            Ok(Some(found)) => {
                put_record(page, index_number(index), found.call);
                index = found.next;
            }
        }
    }
}

pub fn put_decoded(page: &mut Page, values: &[u32], bytes: &[u8])
    ensures { Frame (21 * length bytes.now + 71) page.old page.new }
{
    put_records(page, front(bytes, value(values, 0) as usize));
}
