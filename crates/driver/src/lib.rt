//! The way from a checked network to the network of the groups of a class, one function for each step.
//!
//! `Shared::of` makes what the classes of a network share: its links, their directions, and a store of
//! diagrams. `Shared::problem` builds the problem of a class, `coarsest_of` its groups, `grouped` the links
//! between these too, and `emitted_of` writes the network of the groups. Each command takes the first steps
//! of this way, as many as it needs. A command on one class takes its problem from `problem_of_class`, which
//! copies no edges. A command that goes over all classes makes each problem with `Shared::problem_after`,
//! in OSPF from the one before it, and finds its groups with `coarsest_by_exports`.
#![tactic(auto)]

mod class_problem;
mod emitted;
mod grouping;
mod shared;

pub use class_problem::ClassProblem;
pub use emitted::emitted_of;
pub use grouping::{Grouping, coarsest_by_exports, coarsest_of, exports_of_problem, grouped};
pub use shared::{Shared, problem_of_class};
