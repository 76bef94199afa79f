// The words of a line: where the line ends, where its next word stands, and how many words it has.
ghost use Rattle.std.specs.Prelude.{◌≡◌, ◌≤◌, length};
ghost use Rattle.console_text.specs.Words.{is_blank, run_of, words_of, Finds, counted};

use lent::after;

// Where a word stands in a line: its first byte, and the byte after its last.
#[derive(Clone, Copy)]
pub struct Word {
    pub begin: usize,
    pub end: usize,
}

// Whether a byte parts words.
pub fn is_blank(byte: u8) -> bool
    ensures { result ≡ is_blank byte }
{
    matches!(byte, b' ' | b'\t')
}

// How many bytes a line begins with that are blank, or that are not.
#[tactic(auto, unfolding(crate::specs::Words::run_of))]
fn run(line: &[u8], blank: bool) -> usize
    ensures counted { result ≡ run_of blank line.now }
    ensures within { result ≤ length line.now }
{
    line.iter()
        .take_while(|byte| is_blank(**byte) == blank)
        .count()
}

// The first word from an index on.
pub fn next_word(line: &[u8], from: usize) -> Option<Word>
    ensures { Finds line.now from result }
{
    let begin = from + run(after(line, from), true);
    let end = begin + run(after(line, begin), false);
    (begin < end).then_some(Word { begin, end })
}

// How many words a line has.
pub fn count_words(line: &[u8]) -> usize
    ensures { result ≡ length (words_of line.now) }
{
    let mut words = 0;
    let mut at = 0;
    while let Some(word) = next_word(line, at) {
        words += 1;
        at = word.end;
    }
    words
}

// How many bytes of a line count: a carriage return at its end does not.
#[tactic(auto, unfolding(crate::specs::Words::counted))]
pub fn end(line: &[u8]) -> usize
    ensures { result ≡ counted line.now }
{
    match line {
        [counted @ .., b'\r'] => counted.len(),
        _ => line.len(),
    }
}
