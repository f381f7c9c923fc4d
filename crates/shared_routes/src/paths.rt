//! Paths that share their tails.

ghost use Rattle.std.specs.Prelude.{◌≡◌, ◌++◌, [], suc, IfOk, length, replicate};
ghost use Rattle.srp_core.specs.Acts.{prepended};
ghost use Rattle.srp_core.specs.Routes.{is_on};
ghost use Rattle.shared_routes.specs.Rests.{FollowsNumbers, KeepsRest, numbers_of};

use base_kit::{List, NoMemory};
use std::alloc::Global;
use std::marker::Model;
use std::rc::Rc;

// Of a path with fewer numbers of its own a longer one copies these. Where there are so many, a copy of them
// becomes the tail of the longer path, and of all that are made of it.
const OWN: usize = 64;

/// AS numbers in order: numbers of its own, and a rest that it may share with other paths.
#[cycle(path)]
#[derive(Drop)]
pub struct SharedPath {
    total: usize,
    own: Vec<u32>,
    rest: Rest,
}

/// What follows a path's own numbers. A path that shares a rest has numbers of its own.
#[cycle(path)]
#[derive(Drop)]
enum Rest {
    Nothing,
    Shared(Rc<SharedPath>),
}

impl Model for SharedPath {
    ghost use Rattle.std.specs.Prelude.{List, ℕ, length, ◌++◌};

    ghost Value = { List ℕ };

    ghost use Rattle.shared_routes.specs.Rests.{IsPath, numbers_of};

    ghost view = { λ p. p.own.items ++ numbers_of p.rest };

    ghost invariant = { λ p. IsPath p.total p.own.items p.rest };

    ghost size = { length };

    ghost use Rattle.shared_routes.specs.RestFalls.{rest_falls};

    ghost size_decreases = { λ p h. rest_falls p.own.items p.rest p.total h };
}

// How many numbers a rest has.
fn rest_len(rest: &Rest) -> usize
    ensures { result ≡ length (numbers_of rest.now) }
{
    match rest {
        Rest::Nothing => 0,
        Rest::Shared(path) => path.len(),
    }
}

fn rest_copy(rest: &Rest) -> Result<Rest, NoMemory>
    ensures { IfOk result (KeepsRest rest.now) }
{
    match rest {
        Rest::Nothing => Ok(Rest::Nothing),
        Rest::Shared(path) => Ok(Rest::Shared(path.clone()?)),
    }
}

// The path of these parts.
fn joined(own: Vec<u32>, rest: Rest) -> Result<SharedPath, NoMemory>
    requires { FollowsNumbers own.items rest }
    ensures { IfOk result (λ path. path ≡ own.items ++ numbers_of rest) }
{
    match own.len().checked_add(rest_len(&rest)) {
        None => Err(NoMemory),
        Some(total) => Ok(SharedPath { total, own, rest }),
    }
}

// The number one time more than the count, where so many more numbers will follow.
fn repeated(alloc: Global, number: u32, adds: u8, more: usize) -> Result<Vec<u32>, NoMemory>
    ensures { IfOk result (λ numbers. numbers.items ≡ replicate (suc adds) number) }
{
    let mut numbers = Vec::with_capacity(alloc, more.saturating_add(usize::from(adds) + 1))?;
    numbers.push(number)?;
    for _i in 0..adds {
        numbers.push(number)?;
    }
    Ok(numbers)
}

// Whether the number is in the list.
fn is_among(numbers: &[u32], number: u32) -> bool
    ensures { result ≡ is_on number numbers.now }
{
    numbers.iter().any(|other| *other == number)
}

impl SharedPath {
    /// A path of these numbers, which shares nothing.
    pub fn from_slice(alloc: Global, numbers: &[u32]) -> Result<SharedPath, NoMemory>
        ensures { IfOk result (λ path. path ≡ numbers.now) }
    {
        let own = Vec::from_slice(alloc, numbers)?;
        joined(own, Rest::Nothing)
    }

    /// How many numbers there are.
    pub fn len(&self) -> usize
        ensures { result ≡ length self.now }
    {
        self.total
    }

    /// Whether the number is on the path.
    #[tactic(auto, using(crate::proofs::Joined::on_joined))]
    pub fn has(&self, number: u32) -> bool
        ensures { result ≡ is_on number self.now }
    {
        if is_among(self.own.as_slice(), number) {
            return true;
        }
        match &self.rest {
            Rest::Nothing => false,
            Rest::Shared(path) => path.has(number),
        }
    }

    /// The same path. It shares the rest.
    pub fn copy(&self, alloc: Global) -> Result<SharedPath, NoMemory>
        ensures { IfOk result (λ path. path ≡ self.now) }
    {
        let own = Vec::from_slice(alloc, self.own.as_slice())?;
        let rest = rest_copy(&self.rest)?;
        joined(own, rest)
    }

    // Puts all numbers behind those of a list.
    fn put_into(&self, numbers: &mut Vec<u32>) -> Result<(), NoMemory>
        ensures { IfOk result (λ _. numbers.new.items ≡ numbers.old.items ++ self.now) }
    {
        numbers.extend_from_slice(self.own.as_slice())?;
        match &self.rest {
            Rest::Nothing => Ok(()),
            Rest::Shared(path) => path.put_into(numbers),
        }
    }

    /// All numbers in order, in a list that shares nothing.
    pub fn numbers(&self, alloc: Global) -> Result<List<u32>, NoMemory>
        ensures { IfOk result (λ numbers. numbers ≡ self.now) }
    {
        let mut numbers = Vec::with_capacity(alloc, self.total)?;
        self.put_into(&mut numbers)?;
        Ok(List::from_vec(numbers))
    }

    // The number one time more than the count, then copies of the path's own numbers, and then its rest.
    fn copied_behind(&self, alloc: Global, number: u32, adds: u8) -> Result<SharedPath, NoMemory>
        ensures { IfOk result (λ longer. longer ≡ prepended (suc adds) number self.now) }
    {
        let mut own = repeated(alloc, number, adds, self.own.len())?;
        own.extend_from_slice(self.own.as_slice())?;
        let rest = rest_copy(&self.rest)?;
        let longer = joined(own, rest)?;
        Ok(longer)
    }

    // The number one time more than the count, and then the path as what longer ones share.
    fn shared_behind(&self, alloc: Global, number: u32, adds: u8) -> Result<SharedPath, NoMemory>
        ensures { IfOk result (λ longer. longer ≡ prepended (suc adds) number self.now) }
    {
        let own = repeated(alloc, number, adds, 0)?;
        let path = self.copy(alloc)?;
        let longer = joined(own, Rest::Shared(Rc::new(alloc, path)?))?;
        Ok(longer)
    }

    /// The number one time more than the count, and then the path.
    pub fn lengthened(&self, alloc: Global, number: u32, adds: u8) -> Result<SharedPath, NoMemory>
        ensures { IfOk result (λ longer. longer ≡ prepended (suc adds) number self.now) }
    {
        if self.own.len() < OWN {
            return self.copied_behind(alloc, number, adds);
        }
        self.shared_behind(alloc, number, adds)
    }
}
