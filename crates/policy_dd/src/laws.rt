//! What holds of every function of a session. Each law is the contract of a function that does nothing:
//! whoever needs one calls it.
ghost use Rattle.policy_dd.specs.Compare.{OneForm};
ghost use Rattle.policy_dd.specs.Imports.{EdgeKept};

/// A function keeps its meaning and its form while the store grows.
pub fn edge_kept()
    ensures { EdgeKept }
{}

/// Functions in one store that import every set alike have the same nodes.
pub fn one_form()
    ensures { OneForm }
{}
