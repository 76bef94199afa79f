// What the library and the console do alike with what they are lent: bytes put into a buffer, and numbers taken out of a list.
#![tactic(auto)]

ghost use Rattle.std.specs.Prelude.{◌≡◌, take, drop};
ghost use Rattle.lent.specs.Put.{Put, Puts};
ghost use Rattle.lent.specs.Values.{number, byte_of, word_of};

// A lent buffer, and the index that the next byte goes to: past the buffer's end where a byte was left out.
#[derive(Drop)]
pub struct Page<'a> {
    pub bytes: &'a mut [u8],
    pub at: usize,
}

// Puts bytes from an index on, as many as there is room for, and gives the index after them. One by one: a copy of what fits would need to
// know before how much that is. Apart from `Page::put`: with the page's own index the compiler stores it for each byte, and copies no more
// than one at once.
fn store(bytes: &mut [u8], from: usize, text: &[u8]) -> usize
    ensures { Put text.now from bytes.old bytes.new result }
{
    let mut at = from;
    for byte in text {
        if bytes.len() <= at {
            return at.max(bytes.len() + 1);
        }
        bytes[at] = *byte;
        at += 1;
    }
    at
}

impl<'a> Page<'a> {
    // Puts bytes, as many as there is room for.
    pub fn put(&mut self, text: &[u8])
        ensures { Puts text.now self.old self.new }
    {
        self.at = store(self.bytes, self.at, text);
    }
}

// So many items from the first on, or all of them.
pub fn front<T>(items: &[T], count: usize) -> &[T]
    ensures { result.now ≡ take count items.now }
{
    &items[..count.min(items.len())]
}

// The items after so many.
pub fn after<T>(items: &[T], count: usize) -> &[T]
    ensures { result.now ≡ drop count items.now }
{
    &items[count.min(items.len())..]
}

// A number of a list, 0 where there are not so many; its low bits, as much as a u8 or a u16 holds.
pub fn value(values: &[u32], i: usize) -> u32
    ensures { result ≡ number values.now i }
{
    values.get(i).copied().unwrap_or(0)
}

// Two functions and no type parameter, whose bound would have to say how many bits are kept.
pub fn byte(values: &[u32], i: usize) -> u8
    ensures { result ≡ byte_of (number values.now i) }
{
    (value(values, i) % 256) as u8
}

pub fn word(values: &[u32], i: usize) -> u16
    ensures { result ≡ word_of (number values.now i) }
{
    (value(values, i) % 65536) as u16
}
