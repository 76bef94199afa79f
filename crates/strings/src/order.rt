// A record of an order string, as it is written.
ghost use Rattle.std.specs.Prelude.{◌≡◌};
ghost use Rattle.strings.specs.Encode.{order_of};

use rules::Call;

// A record as its kind and its numbers, whatever they are: one that will be refused is written as well. `rules::Call` with type parameters for
// byte, word and level would be spelled out wherever a call is named.
#[derive(Clone, Copy)]
pub enum Order {
    // The address and the value.
    Write(u32, u32),
    // The address.
    Read(u32),
    // How many ticks.
    Ticks(u32),
    // The channel and the count.
    Tachometer(u32, u32),
    // The level: 0 is low, 1 is high.
    Pin(u32),
    // The address and the word.
    WriteWord(u32, u32),
    // The channel.
    Pulse(u32),
}

impl From<Call> for Order {
    ghost from_gives = { λ call order. order ≡ order_of call };

    #[tactic(auto, unfolding(crate::specs::Encode::order_of))]
    fn from(call: Call) -> Order {
        match call {
            Call::Write(address, byte) => Order::Write(address, u32::from(byte)),
            Call::Read(address) => Order::Read(address),
            Call::Ticks(ticks) => Order::Ticks(ticks),
            Call::Tachometer(channel, count) => Order::Tachometer(channel, count),
            Call::Pin(high) => Order::Pin(u32::from(high)),
            Call::WriteWord(address, word) => Order::WriteWord(address, u32::from(word)),
            Call::Pulse(channel) => Order::Pulse(channel),
        }
    }
}
