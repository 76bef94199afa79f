// A record of an order string, one step a byte, and the record that stands at an index of a lent string.
ghost use Rattle.std.specs.Prelude.{◌≡◌};
ghost use Rattle.strings.specs.Number.{group_of};
ghost use Rattle.strings.specs.Record.{kind_of, number_of, step_of};
ghost use Rattle.strings.specs.Refusals.{group_by, step_by, found_by};
ghost use Rattle.strings.specs.String.{record_at};

use rules::Call;
use strings::{Found, Group, Kind, Partial, Stage, Step, StringRefusal};

// What a byte makes of the number that is being read. The fifth byte holds four bits and is the last.
fn next_group(partial: Partial, byte: u8) -> Result<Group, StringRefusal>
    ensures { group_by result ≡ group_of partial.groups partial.value byte }
{
    if partial.groups == 4 && byte > 15 {
        return Err(StringRefusal::NumberTooLarge);
    }
    if partial.groups > 0 && byte == 0 {
        return Err(StringRefusal::LongForm);
    }
    let value = partial.value + (u32::from(byte % 128) << (7 * partial.groups));
    if byte < 128 {
        Ok(Group::Last(value))
    } else {
        Ok(Group::More(value))
    }
}

#[tactic(auto, unfolding(strings::specs::Record::kind_of))]
fn take_kind(kind: u32) -> Result<Step, StringRefusal>
    ensures { step_by result ≡ kind_of kind }
{
    let kind = Kind::numbered(kind).ok_or(StringRefusal::NoRecord)?;
    let stage = match kind {
        Kind::Write => Stage::WriteAddress,
        Kind::Read => Stage::ReadAddress,
        Kind::Ticks => Stage::TickCount,
        Kind::Tachometer => Stage::ResultChannel,
        Kind::Pin => Stage::PinLevel,
        Kind::WriteWord => Stage::WordAddress,
        Kind::Pulse => Stage::PulseChannel,
    };
    Ok(Step::More(Partial::begun(stage)))
}

// What a whole number makes of a record. Of a write the value is a byte, of a pin the level 0 or 1, and a word has 16 bits.
#[tactic(auto, unfolding(strings::specs::Record::number_of))]
fn take_number(stage: Stage, number: u32) -> Result<Step, StringRefusal>
    ensures { step_by result ≡ number_of stage number }
{
    match stage {
        Stage::Kind => take_kind(number),
        Stage::WriteAddress => Ok(Step::More(Partial::begun(Stage::WriteByte(number)))),
        Stage::WriteByte(address) => {
            let byte = u8::try_from(number).map_err(|_| StringRefusal::NoRecord)?;
            Ok(Step::Whole(Call::Write(address, byte)))
        }
        Stage::ReadAddress => Ok(Step::Whole(Call::Read(number))),
        Stage::TickCount => Ok(Step::Whole(Call::Ticks(number))),
        Stage::ResultChannel => Ok(Step::More(Partial::begun(Stage::ResultCount(number)))),
        Stage::ResultCount(channel) => Ok(Step::Whole(Call::Tachometer(channel, number))),
        Stage::PinLevel => match number {
            0 => Ok(Step::Whole(Call::Pin(false))),
            1 => Ok(Step::Whole(Call::Pin(true))),
            _ => Err(StringRefusal::NoRecord),
        },
        Stage::WordAddress => Ok(Step::More(Partial::begun(Stage::WordValue(number)))),
        Stage::WordValue(address) => {
            let word = u16::try_from(number).map_err(|_| StringRefusal::NoRecord)?;
            Ok(Step::Whole(Call::WriteWord(address, word)))
        }
        Stage::PulseChannel => Ok(Step::Whole(Call::Pulse(number))),
    }
}

// One byte more of a record.
fn take_byte(partial: Partial, byte: u8) -> Result<Step, StringRefusal>
    ensures { step_by result ≡ step_of partial byte }
{
    match next_group(partial, byte)? {
        Group::More(value) => Ok(Step::More(Partial {
            groups: partial.groups + 1,
            value,
            ..partial
        })),
        Group::Last(number) => take_number(partial.stage, number),
    }
}

// The record that stands at an index of a string.
pub fn record_at(string: &[u8], at: usize) -> Result<Option<Found>, StringRefusal>
    ensures { found_by result ≡ record_at string.now at }
{
    if string.len() <= at {
        return Ok(None);
    }
    let mut partial = Partial::begun(Stage::Kind);
    let rest = &string[at..];
    for (i, byte) in rest.iter().enumerate() {
        match take_byte(partial, *byte)? {
            Step::More(more) => partial = more,
            Step::Whole(call) => {
                let next = at + i + 1;
                return Ok(Some(Found { call, next }));
            }
        }
    }
    Err(StringRefusal::StringEnds)
}
