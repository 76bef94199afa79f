// Duties and counts as the words that the registers show, and back. Every function takes any number: a duty counts
// modulo 512, a count modulo 2,048, and the bits of a word that show no number are dropped. A duty and a count differ in a shift alone; a function over it
// would take a number where these have a name, as the definitions have.
#![tactic(auto)]

ghost use Rattle.std.specs.Prelude.{◌≡◌};
ghost use Rattle.rules.specs.Words.{duty_word, word_duty, count_word, word_count, output_word, word_byte};

// The word of a target duty (40h to 4Bh).
pub fn duty_word(duty: u16) -> u16
    ensures { result ≡ duty_word duty }
{
    duty << 7
}

// The duty that such a word shows, or an output duty's word.
pub fn word_duty(word: u16) -> u16
    ensures { result ≡ word_duty word }
{
    word >> 7
}

// The word of an output duty (30h to 3Bh): full speed has bit 0 set besides.
pub fn output_word(duty: u16) -> u16
    ensures { result ≡ output_word duty }
{
    duty_word(duty) + u16::from(duty % 512 == 511)
}

// The word of a tachometer count (18h to 2Fh) or of a target count (50h to 5Bh).
pub fn count_word(count: u16) -> u16
    ensures { result ≡ count_word count }
{
    count << 5
}

// The count that such a word shows.
pub fn word_count(word: u16) -> u16
    ensures { result ≡ word_count word }
{
    word >> 5
}

// The low or the high byte of a word. The high one stands first on the bus.
pub fn word_byte(word: u16, low: bool) -> u8
    ensures { result ≡ word_byte low word }
{
    let [high_byte, low_byte] = word.to_be_bytes();
    if low { low_byte } else { high_byte }
}
