// `help`: a line for each command.
ghost use Rattle.console_text.specs.Frame.{Frame};

use console_form::put_text;
use lent::Page;

pub fn put_help(page: &mut Page)
    ensures { Frame 4096 page.old page.new }
{
    put_text(
        page,
        b"A command, and what it answers. Numbers are decimal, or hexadecimal after 0x.
A STRING is bytes: hexadecimal digits in pairs, or - for none.
A signed number is decimal, with - before it where it is below 0. NORMAL QUIET are the galley's
two tables, STRINGs of 48 bytes.
start WATCHDOG SPINUP TARGET FREQUENCY MODIFICATION
                                        refusal; 0 is accepted, here and below. MODIFICATION is 0 for A, 1 for B
write ADDRESS BYTE                      refusal
word ADDRESS WORD                       refusal; a target, in one go
read ADDRESS                            refusal, byte
ticks N                                 refusal; a tick is 1/512 s
tach CHANNEL COUNT                      refusal
pulse CHANNEL                           refusal; under B the second within a spin-up ends it
pin LEVEL                               refusal; 0 is low, 1 is high
cabin                                   refusal, seconds, six shares
fanfail                                 refusal, asserted, how many, lowest channel
speed RANGE PULSES COUNT                refusal, and the speed, stopped or too fast
dump                                    the state's 76 numbers
load NUMBERS                            ok; the state is made of these 76 numbers
show                                    the state for a person to read
chart TICKS                             the duties over the next TICKS ticks, drawn
run STRING ALLOWANCE ROOM               refusal, records taken, answer bytes, the buffer of ROOM bytes
encode CALL                             a write, word, read, ticks, tach, pulse or pin as its record, in bytes
decode STRING                           the records of STRING for a person to read
gfresh HIGH OVER HYSTERESIS QUIET       refusal; signed thresholds in 1/8 C, 0 or 1 for 2 C or 4 C, 1 for quiet
gsample T NORMAL QUIET                  refusal, ALERT, SHDN; T is signed, in 1/8 C
gspan FIRST END NORMAL QUIET            refusal, the table in force from row FIRST to before row END
gread                                   refusal, the temperature in degrees
gdump                                   the galley's row, temperature, high, over, hysteresis, quiet
gload NUMBERS                           ok; the galley is made of these six numbers
gshow                                   the galley for a person to read
help                                    these lines
",
    );
}
