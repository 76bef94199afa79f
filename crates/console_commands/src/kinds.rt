// A call that a line asks for by its kind and its numbers: the call itself, and its record. Two functions, since a call holds a byte, a word and
// a flag where a record holds any number.
ghost use Rattle.std.specs.Prelude.{◌≡◌};
ghost use Rattle.console_commands.specs.Kinds.{call_by, order_by};

use rules::Call;
use strings::{Kind, Order};

// The table's limits hold a byte and a word to what they can be.
pub fn call_by(kind: Kind, first: u32, second: u32) -> Call
    ensures { result ≡ call_by first second kind }
{
    match kind {
        Kind::Write => Call::Write(first, (second % 256) as u8),
        Kind::Read => Call::Read(first),
        Kind::Ticks => Call::Ticks(first),
        Kind::Tachometer => Call::Tachometer(first, second),
        Kind::Pin => Call::Pin(first == 1),
        Kind::WriteWord => Call::WriteWord(first, (second % 65536) as u16),
        Kind::Pulse => Call::Pulse(first),
    }
}

// The record, whose numbers may be any.
pub fn order_by(kind: Kind, first: u32, second: u32) -> Order
    ensures { result ≡ order_by first second kind }
{
    match kind {
        Kind::Write => Order::Write(first, second),
        Kind::Read => Order::Read(first),
        Kind::Ticks => Order::Ticks(first),
        Kind::Tachometer => Order::Tachometer(first, second),
        Kind::Pin => Order::Pin(first),
        Kind::WriteWord => Order::WriteWord(first, second),
        Kind::Pulse => Order::Pulse(first),
    }
}
