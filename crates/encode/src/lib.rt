// A record as bytes, put into a lent buffer. The definitions stand in `strings`.
#![tactic(auto)]

ghost use Rattle.std.specs.Prelude.{◌≡◌};
ghost use Rattle.lent.specs.Put.{Put, Puts};
ghost use Rattle.strings.specs.Encode.{number_bytes, numbers_bytes, encoded};

use lent::Page;
use strings::{Kind, Order};

// Puts a number in groups of seven bits, the low group first, with the top bit set on all but the last.
fn put_number(page: &mut Page, number: u32)
    ensures { Puts (number_bytes number) page.old page.new }
{
    let mut rest = number;
    while rest >= 128 {
        page.put(&[128 + (rest % 128) as u8]);
        rest /= 128;
    }
    page.put(&[rest as u8]);
}

fn put_numbers(page: &mut Page, numbers: &[u32])
    ensures { Puts (numbers_bytes numbers.now) page.old page.new }
{
    for number in numbers {
        put_number(page, *number);
    }
}

#[tactic(auto, unfolding(strings::specs::Encode::encoded))]
fn put_order(page: &mut Page, order: Order)
    ensures { Puts (encoded order) page.old page.new }
{
    match order {
        Order::Write(address, value) => {
            put_numbers(page, &[Kind::Write.number(), address, value])
        }
        Order::Read(address) => put_numbers(page, &[Kind::Read.number(), address]),
        Order::Ticks(ticks) => put_numbers(page, &[Kind::Ticks.number(), ticks]),
        Order::Tachometer(channel, count) => {
            put_numbers(page, &[Kind::Tachometer.number(), channel, count])
        }
        Order::Pin(level) => put_numbers(page, &[Kind::Pin.number(), level]),
        Order::WriteWord(address, word) => {
            put_numbers(page, &[Kind::WriteWord.number(), address, word])
        }
        Order::Pulse(channel) => put_numbers(page, &[Kind::Pulse.number(), channel]),
    }
}

// Puts a record into a buffer from an index on, as far as there is room, and gives the index after it: past the buffer's end
// where a byte was left out.
pub fn encode(order: Order, out: &mut [u8], at: usize) -> usize
    ensures { Put (encoded order) at out.old out.new result }
{
    let mut page = Page { bytes: out, at };
    put_order(&mut page, order);
    page.at
}
