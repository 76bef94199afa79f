// A line, gathered from the input piece by piece, and what it is once it has ended.
ghost use Rattle.std.specs.Prelude.{◌≡◌, ◌≤◌, max, length};
ghost use Rattle.console_text.specs.Words.{words_of, skipped_of, ended_of};

use crate::line::{end, is_blank, next_word};
use lent::front;

// The most bytes of a line that is a call.
const LONGEST: usize = 4096;

// A line as far as it was read: the bytes kept, which are those from its first word on, as many as there is room for, and
// how many it has in all, which is counted up to two more than a call can have.
// Where its bytes stand is the caller's, who reads on into it.
#[derive(Clone, Copy, Default)]
pub struct Gathered {
    pub kept: usize,
    pub total: usize,
}

// What a line is that has ended: one that answers nothing, one longer than a call can be, or so many bytes. All three are
// answers, as the definition `ended_of` has them, so none is an `Err` or a `None`.
#[derive(Clone, Copy, Debug, PartialEq, Eq)]
pub enum Ended {
    Skipped,
    TooLong,
    Whole(usize),
}

// Whether a line answers nothing: it has no word, or its first begins with `#`.
fn is_skipped(line: &[u8]) -> bool
    ensures { result ≡ skipped_of (words_of line.now) }
{
    match next_word(line, 0) {
        Some(word) => line[word.begin] == b'#',
        None => true,
    }
}

impl Gathered {
    // Adds a byte to a line. Blanks before the first word are counted and not kept, so that a line of them stays empty and a
    // comment shows its first byte, however long it is. By an index, since which bytes are kept is known only as they come.
    fn keep(&mut self, byte: u8, line: &mut [u8])
        ensures { self.new.kept ≤ max self.old.kept (length line.old) }
    {
        self.total = self.total.saturating_add(1).min(LONGEST + 2);
        if self.kept == 0 && is_blank(byte) {
            return;
        }
        if self.kept < line.len() {
            line[self.kept] = byte;
            self.kept += 1;
        }
    }

    // Adds bytes to a line.
    pub fn add(&mut self, bytes: &[u8], line: &mut [u8])
        ensures { self.new.kept ≤ max self.old.kept (length line.old) }
    {
        for byte in bytes {
            self.keep(*byte, line);
        }
    }

    // What the line is, by the bytes that were kept of it.
    #[tactic(auto, unfolding(crate::specs::Words::ended_of))]
    pub fn end(self, line: &[u8]) -> Ended
        ensures { result ≡ ended_of self.kept self.total line.now }
    {
        let kept = front(line, self.kept);
        let counted = end(kept);
        if is_skipped(front(kept, counted)) {
            return Ended::Skipped;
        }
        if LONGEST < self.total.saturating_sub(self.kept.saturating_sub(counted)) {
            return Ended::TooLong;
        }
        Ended::Whole(counted)
    }
}
