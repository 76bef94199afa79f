// The register map: what stands at an address.
ghost use Rattle.std.specs.Prelude.{◌≡◌, ◌<◌};
ghost use Rattle.rules.specs.Map.{place_at};

use rules::{BoxRegister, ChannelIndex, ChannelRegister, Place, StatusRegister, WordRegister};

fn channel(n: u32) -> ChannelIndex
    requires { n < 6 }
    ensures { result ≡ n }
{
    ChannelIndex::new(n as usize).unwrap()
}

// What stands at an address. The rows of words have the low bytes at the odd addresses.
#[tactic(auto, unfolding(rules::specs::Map::place_at, rules::specs::Map::setting_at, rules::specs::Map::status_at, rules::specs::Map::target_at))]
pub fn place_at(a: u32) -> Place
    ensures { result ≡ place_at a }
{
    let low = a % 2 == 1;
    match a {
        0x00 => Place::Shared(BoxRegister::Control),
        0x01 => Place::Shared(BoxRegister::Frequency),
        0x02..=0x07 => Place::Own(ChannelRegister::Config, channel(a - 0x02)),
        0x08..=0x0D => Place::Own(ChannelRegister::Dynamics, channel(a - 0x08)),
        0x10 => Place::ReadOnly(StatusRegister::Faults2),
        0x11 => Place::ReadOnly(StatusRegister::Faults1),
        0x12 => Place::Shared(BoxRegister::Mask2),
        0x13 => Place::Shared(BoxRegister::Mask1),
        0x14 => Place::Shared(BoxRegister::Options),
        0x18..=0x23 => Place::ReadOnly(StatusRegister::Count(channel((a - 0x18) / 2), low)),
        0x24..=0x2F => Place::ReadOnly(StatusRegister::OtherCount(low)),
        0x30..=0x3B => Place::ReadOnly(StatusRegister::Output(channel((a - 0x30) / 2), low)),
        0x40..=0x4B => Place::OwnWord(WordRegister::Target, channel((a - 0x40) / 2), low),
        0x50..=0x5B => Place::OwnWord(WordRegister::TargetCount, channel((a - 0x50) / 2), low),
        0x60..=0x65 => Place::Own(ChannelRegister::Window, channel(a - 0x60)),
        _ => Place::Absent,
    }
}
