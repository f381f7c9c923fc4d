//! What is known of a set of communities: those that it has and those that it lacks.

ghost use Rattle.std.specs.Prelude.{◌≡◌, IfOk};
ghost use Rattle.canon_policy.specs.Fixings.{nothing_fixed, with_present, with_absent};

use base_kit::{NoMemory, NumSet};
use std::alloc::Global;

/// What is known about a set of communities: some that it has, and some that it does not have.
pub struct Fixing {
    pub present: NumSet,
    pub absent: NumSet,
}

// One call where a fixing is dropped, in place of the drops of its two sets.
impl Drop for Fixing {
    fn drop(self) {
        let Fixing {
            present: _present,
            absent: _absent,
        } = self;
    }
}

impl Fixing {
    /// Nothing is known.
    pub fn new(alloc: Global) -> Fixing
        ensures { result ≡ nothing_fixed }
    {
        Fixing {
            present: NumSet::new(alloc),
            absent: NumSet::new(alloc),
        }
    }

    /// The fixing with one more community that the set has.
    pub fn with_present(&self, community: u32) -> Result<Fixing, NoMemory>
        ensures { IfOk result (λ fixing. fixing ≡ with_present community self.now) }
    {
        let mut present = self.present.copy()?;
        present.add(community)?;
        let absent = self.absent.copy()?;
        Ok(Fixing { present, absent })
    }

    /// The fixing with one more community that the set does not have.
    pub fn with_absent(&self, community: u32) -> Result<Fixing, NoMemory>
        ensures { IfOk result (λ fixing. fixing ≡ with_absent community self.now) }
    {
        let present = self.present.copy()?;
        let mut absent = self.absent.copy()?;
        absent.add(community)?;
        Ok(Fixing { present, absent })
    }
}
