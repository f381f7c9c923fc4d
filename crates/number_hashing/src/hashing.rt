//! The hash of a table of numbers.

use std::hash::{BuildHasher, DefaultHasher, FoldHasher, Hash, Hasher};

/// So many numbers are hashed without a key: if their hashes meet, they cost little.
pub const FEW: usize = 64;

/// How the numbers of a table are hashed: as the kit does it, from a state of its own.
#[derive(Clone, Copy)]
pub struct NumberHashing {
    initial: FoldHasher,
}

impl BuildHasher for NumberHashing {
    type Hasher = FoldHasher;

    ghost build_hasher = { λ hashing. hashing.initial };

    fn build_hasher(&self) -> FoldHasher {
        self.initial
    }
}

impl NumberHashing {
    /// The hash without a key, for few numbers and for numbers that no text chooses.
    pub fn plain() -> Self {
        NumberHashing {
            initial: FoldHasher::default(),
        }
    }
}

/// A digest of the numbers that a table will have. Of few there is none.
#[derive(Drop)]
pub struct NumberDigest {
    digest: Option<DefaultHasher>,
}

impl NumberDigest {
    /// The digest for so many numbers, before the first.
    pub fn for_count(count: usize) -> Self {
        if count <= FEW {
            return NumberDigest { digest: None };
        }
        NumberDigest {
            digest: Some(DefaultHasher::new()),
        }
    }

    /// Adds a number.
    pub fn add_number(&mut self, number: u64) {
        if let Some(digest) = &mut self.digest {
            digest.write_u64(number);
        }
    }

    /// Adds two numbers. They are one word to SipHash, which takes a word in the time of a byte.
    pub fn add_pair(&mut self, first: u32, second: u32) {
        self.add_number(u64::from(first) << 32 | u64::from(second));
    }

    /// Adds a key that is made of numbers.
    pub fn add<K: Hash>(&mut self, key: &K) {
        if let Some(digest) = &mut self.digest {
            key.hash(digest);
        }
    }

    /// The hash for these numbers.
    pub fn hashing(self) -> NumberHashing {
        let Some(digest) = self.digest else {
            return NumberHashing::plain();
        };
        let mut initial = FoldHasher::default();
        initial.write_u64(digest.finish());
        NumberHashing { initial }
    }
}
