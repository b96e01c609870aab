// A key that values decide, and hashes under it.
use blink_base::Value;
use std::hash::{BuildHasher, DefaultHasher, FoldHasher, Hash, Hasher};

// How many whole numbers are taken into a state at once.
const NUMBERS: usize = 8;

/// A digest of values, one after the other: a number that depends on each of them. An [`Interner`] that has it for its key
/// hashes by a function that is not known before all values stand. It decides how values are hashed, and no answer. It takes
/// no memory. Source: this project's own, with SipHash (Aumasson and Bernstein, 2012) of the values.
#[derive(Clone, Copy)]
pub struct Digest {
    state: DefaultHasher,
    // Whole numbers that the state has not taken yet: so many of the first.
    numbers: [i64; NUMBERS],
    count: usize,
}

impl Digest {
    /// Of no value.
    pub fn new() -> Digest {
        Digest {
            state: DefaultHasher::new(),
            numbers: [0; NUMBERS],
            count: 0,
        }
    }

    /// Adds a value behind the others.
    pub fn add(&mut self, value: &Value) {
        match value {
            Value::Int(number) => self.add_number(*number),
            _ => {
                self.take_numbers();
                value.hash(&mut self.state);
            }
        }
    }

    // Adds a whole number behind the others.
    fn add_number(&mut self, number: i64) {
        if self.count >= NUMBERS {
            self.take_numbers();
        }
        if let Some(place) = self.numbers.get_mut(self.count) {
            *place = number;
            self.count += 1;
        }
    }

    // The state takes the numbers that it has not taken yet, in one write.
    fn take_numbers(&mut self) {
        let count = self.count.min(NUMBERS);
        let mut bytes = [0; 8 * NUMBERS];
        for at in 0..count {
            bytes[8 * at..8 * at + 8].copy_from_slice(&self.numbers[at].to_le_bytes());
        }
        self.state.write(&bytes[..8 * count]);
        self.count = 0;
    }

    // The number.
    pub(crate) fn number(mut self) -> u64 {
        self.take_numbers();
        self.state.finish()
    }
}

// Starts each hash behind a key, so that the key decides which values collide.
#[derive(Clone, Copy)]
pub(crate) struct KeyedHasher {
    start: FoldHasher,
}

impl KeyedHasher {
    pub(crate) fn new(key: u64) -> KeyedHasher {
        let mut start = FoldHasher::default();
        start.write(&key.to_le_bytes());
        KeyedHasher { start }
    }
}

impl BuildHasher for KeyedHasher {
    type Hasher = FoldHasher;

    ghost build_hasher = { λ s. s.start };

    fn build_hasher(&self) -> FoldHasher {
        self.start
    }
}
