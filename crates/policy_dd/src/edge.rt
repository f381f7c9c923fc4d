//! The function of a session, and when two sessions import alike.

ghost use Rattle.std.specs.Prelude.{◌≡◌, ℕ, List as Items, Option, true, false};
ghost use Rattle.route_maps.specs.declared.plain.Imported.{Imported};
ghost use Rattle.policy_dd.specs.Edge.{IsEdgeFn};
ghost use Rattle.policy_dd.specs.Imports.{AreOneImport, DifferInPreference, HaveOnePreference, AcceptsSome, AcceptsNone};
ghost use Rattle.policy_dd.specs.Compare.{HaveEqualParts, key_differs, keys_differ};

use base_kit::{Community, List};
use dd_core::{NodeId, Store};

/// What a session does to a set of communities, in nodes of one store. All other nodes imply `permit`.
#[derive(Drop)]
pub struct EdgeFn {
    /// Where a route is accepted.
    pub permit: NodeId,
    /// The preferences, ascending, each with the node of the sets that get it. None is false everywhere.
    pub lps: List<(u32, NodeId)>,
    /// The counts of AS numbers put before the path, in the same way.
    pub adds: List<(u8, NodeId)>,
    /// The communities that some accepted set does not carry as `rest` says, ascending, each with the
    /// node of the sets for which it is carried. As `rest` says, a community is carried if the set has
    /// it and `rest` is true.
    pub outs: List<(Community, NodeId)>,
    /// Where every other community of the set is carried.
    pub rest: NodeId,
}

fn same_lps(a: &[(u32, NodeId)], b: &[(u32, NodeId)]) -> bool
    ensures same { result ≡ true → a.now ≡ b.now }
    ensures different { a.now ≡ b.now → result ≡ true }
{
    a == b
}

fn same_adds(a: &[(u8, NodeId)], b: &[(u8, NodeId)]) -> bool
    ensures same { result ≡ true → a.now ≡ b.now }
    ensures different { a.now ≡ b.now → result ≡ true }
{
    a == b
}

fn same_outs(a: &[(Community, NodeId)], b: &[(Community, NodeId)]) -> bool
    ensures same { result ≡ true → a.now ≡ b.now }
    ensures different { a.now ≡ b.now → result ≡ true }
{
    a == b
}

/// Whether two functions have the same nodes.
fn has_equal_parts(a: &EdgeFn, b: &EdgeFn) -> bool
    ensures equal { result ≡ true → HaveEqualParts a.now b.now }
    ensures different { HaveEqualParts a.now b.now → result ≡ true }
{
    if a.permit != b.permit {
        return false;
    }
    if a.rest != b.rest {
        return false;
    }
    if !same_lps(a.lps.as_slice(), b.lps.as_slice()) {
        return false;
    }
    if !same_adds(a.adds.as_slice(), b.adds.as_slice()) {
        return false;
    }
    same_outs(a.outs.as_slice(), b.outs.as_slice())
}

/// Whether two sessions import every set of communities alike.
pub fn same(store: &Store, a: &EdgeFn, b: &EdgeFn) -> bool
    ensures same { (f g : Items ℕ → Option Imported) → IsEdgeFn store.now a.now f → IsEdgeFn store.now b.now g → result ≡ true → AreOneImport f g }
    ensures different { (f g : Items ℕ → Option Imported) → IsEdgeFn store.now a.now f → IsEdgeFn store.now b.now g → AreOneImport f g → result ≡ true }
{
    let _known = store.len();
    has_equal_parts(a, b)
}

fn differs(key: u32, cases: &[(u32, NodeId)]) -> bool
    ensures { result ≡ key_differs key cases.now }
{
    cases.iter().any(|case| case.0 != key)
}

fn differ(a: &[(u32, NodeId)], b: &[(u32, NodeId)]) -> bool
    ensures { result ≡ keys_differ a.now b.now }
{
    a.iter().any(|case| differs(case.0, b))
}

/// Whether some route that the one session accepts and some route that the other accepts have different
/// preferences. Both may be one session.
pub fn several(store: &Store, a: &EdgeFn, b: &EdgeFn) -> bool
    ensures several { (f g : Items ℕ → Option Imported) → IsEdgeFn store.now a.now f → IsEdgeFn store.now b.now g → result ≡ true → DifferInPreference f g }
    ensures one { (f g : Items ℕ → Option Imported) → IsEdgeFn store.now a.now f → IsEdgeFn store.now b.now g → result ≡ false → HaveOnePreference f g }
{
    let _known = store.len();
    differ(a.lps.as_slice(), b.lps.as_slice())
}

/// Whether the session accepts any route.
pub fn accepts_some(store: &Store, a: &EdgeFn) -> bool
    ensures some { (f : Items ℕ → Option Imported) → IsEdgeFn store.now a.now f → result ≡ true → AcceptsSome f }
    ensures none { (f : Items ℕ → Option Imported) → IsEdgeFn store.now a.now f → result ≡ false → AcceptsNone f }
{
    let _known = store.len();
    a.permit != store.constant(false)
}
