// Numbers, as many as a state has at most: an array and no `Vec`, since a command cannot fail and an allocation can.
ghost use Rattle.std.specs.Prelude.{◌≡◌, ◌≤◌, length, take};
ghost use Rattle.numbers.specs.Numbers.{number_count};

use numbers::STATE_NUMBERS;

// No `impl Model`, which would see the numbers alone: what forgets the places after them cannot be `Copy`.
#[derive(Clone, Copy)]
pub struct NumberList {
    list: [u32; STATE_NUMBERS],
    count: usize,
    ghost few: { count ≤ number_count },
}

impl NumberList {
    // The first of them, where there are more.
    pub fn first_of(numbers: &[u32]) -> NumberList
        ensures { take result.count result.list ≡ take number_count numbers.now }
    {
        let count = numbers.len().min(STATE_NUMBERS);
        let mut list = [0; STATE_NUMBERS];
        list[..count].copy_from_slice(&numbers[..count]);
        NumberList { list, count }
    }

    pub fn as_slice(&self) -> &[u32]
        ensures same { result.now ≡ take self.now.count self.now.list }
        ensures few { length result.now ≤ number_count }
    {
        &self.list[..self.count]
    }
}
