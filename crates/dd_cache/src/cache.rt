//! The memory of operations, which forgets the oldest.

ghost use Rattle.std.specs.Prelude.{◌≡◌, ◌≤◌, [], IfOk, OnOk, OnErr, IsSome, IsOk};
ghost use Rattle.dd_cache.specs.Memory.{Memory, memory, found, recalled, kept, IsBounded};

use base_kit::NoMemory;
use lru::LruCache;
use std::alloc::Global;
use std::marker::Model;
use std::num::NonZeroUsize;

/// An operation, named by the three nodes on which it works.
#[derive(Clone, Copy, Debug, PartialEq, Eq, Hash)]
pub struct OpKey {
    pub a: usize,
    pub b: usize,
    pub c: usize,
}

/// The nodes that the last operations gave, each under the key of its operation.
#[derive(Drop)]
pub struct Cache {
    kept: LruCache<OpKey, usize>,
}

impl Model for Cache {
    ghost use Rattle.dd_cache.specs.Memory.{Memory, memory};

    ghost Value = { Memory };

    ghost view = { λ c. memory c.kept.cap c.kept.entries };
}

impl Cache {
    /// A cache that keeps nothing yet, and never more entries than the capacity. It takes memory as it
    /// fills, so a large capacity costs nothing where few operations are asked.
    pub fn new(alloc: Global, capacity: usize) -> Result<Cache, NoMemory>
        requires { 1 ≤ capacity }
        ensures { IfOk result (λ c. c ≡ memory capacity []) }
    {
        let Some(capacity) = NonZeroUsize::new(capacity) else {
            unreachable!()
        };
        let kept = LruCache::sparse(alloc, capacity)?;
        Ok(Cache { kept })
    }

    /// The node kept under the key.
    pub fn look(&self, key: OpKey) -> Option<usize>
        ensures { result ≡ found key self.now.entries }
    {
        self.kept.peek(&key).copied()
    }

    /// The node kept under the key, whose entry is the first from then on.
    pub fn recall(&mut self, key: OpKey) -> Option<usize>
        ensures node { result ≡ found key self.old.entries }
        ensures front { self.new ≡ memory self.old.capacity (recalled key self.old.entries) }
    {
        let node = self.kept.peek(&key).copied();
        self.kept.promote(&key);
        node
    }

    /// Puts the node under the key, first. An earlier entry of the key goes, and the last entry too if
    /// there would be more than the capacity. Memory can run out only for a key that is not there.
    pub fn keep(&mut self, key: OpKey, node: usize) -> Result<(), NoMemory>
        ensures ok { OnOk result (self.new ≡ memory self.old.capacity (kept self.old.capacity key node self.old.entries)) }
        ensures err { OnErr result (self.new ≡ self.old) }
        ensures there { IsSome (found key self.old.entries) → IsOk result }
        ensures bounded { IsBounded self.old }
    {
        let _known = self.kept.len();
        self.kept.put(key, node)?;
        Ok(())
    }
}
