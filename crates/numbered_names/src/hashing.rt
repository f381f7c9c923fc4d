//! How a table hashes names.
//!
//! The hash of the kit has a fixed seed, so names can be chosen whose hashes meet. A table of many names
//! takes a hash with a key that is a digest of all of them: names chosen for one key have another.

ghost use Rattle.std.specs.Prelude.{◌≡◌};
ghost use Rattle.numbered_names.specs.Hashing.{written, finished};

use crate::has_name::HasName;
use sha2::{Digest, Sha256};
use std::hash::{BuildHasher, DefaultHasher, FoldHasher, Hasher};

/// So many names are hashed without a key: if their hashes meet, they cost little.
pub const FEW: usize = 12;

/// The hasher of a name: the kit's, or SipHash with a key.
#[derive(Clone, Copy)]
pub enum NameHasher {
    Plain(FoldHasher),
    Keyed(DefaultHasher),
}

impl Hasher for NameHasher {
    ghost write = { written };

    ghost finish = { finished };

    fn finish(&self) -> u64 {
        match self {
            NameHasher::Plain(hasher) => hasher.finish(),
            NameHasher::Keyed(hasher) => hasher.finish(),
        }
    }

    fn write(&mut self, bytes: &[u8]) {
        match self {
            NameHasher::Plain(hasher) => hasher.write(bytes),
            NameHasher::Keyed(hasher) => hasher.write(bytes),
        }
    }
}

/// How the names of a table are hashed.
#[derive(Clone, Copy)]
pub struct NameHashing {
    initial: NameHasher,
}

impl BuildHasher for NameHashing {
    type Hasher = NameHasher;

    ghost build_hasher = { λ hashing. hashing.initial };

    fn build_hasher(&self) -> NameHasher {
        self.initial
    }
}

impl NameHashing {
    /// The hash without a key, for few names.
    pub fn plain() -> Self {
        NameHashing {
            initial: NameHasher::Plain(FoldHasher::default()),
        }
    }

    /// The hash for the names of items.
    pub fn of<T: HasName>(items: &[T]) -> Self {
        if items.len() <= FEW {
            return NameHashing::plain();
        }
        let mut names = NameDigest::new();
        for item in items {
            names.add(item.name().as_bytes());
        }
        names.hashing()
    }

    /// The hash for names that are among words.
    pub fn of_words(words: &[&[u8]]) -> Self {
        if words.len() <= FEW {
            return NameHashing::plain();
        }
        let mut names = NameDigest::new();
        for word in words {
            names.add(word);
        }
        names.hashing()
    }
}

/// A digest of the names that a table will have.
#[derive(Drop)]
pub struct NameDigest {
    digest: Sha256,
    count: usize,
}

impl NameDigest {
    /// The digest of no names.
    pub fn new() -> Self {
        NameDigest {
            digest: Sha256::new(),
            count: 0,
        }
    }

    /// Adds a name, or bytes that say it.
    pub fn add(&mut self, name: &[u8]) {
        self.digest.update(name);
        self.digest.update(b"\n".as_slice());
        self.count = self.count.wrapping_add(1);
    }

    /// The hash for these names.
    pub fn hashing(self) -> NameHashing {
        let NameDigest { digest, count } = self;
        if count <= FEW {
            return NameHashing::plain();
        }
        let key: [u8; 32] = digest.finalize();
        let mut keyed = DefaultHasher::new();
        keyed.write(key.as_slice());
        NameHashing {
            initial: NameHasher::Keyed(keyed),
        }
    }
}
