//! A network and one of its classes determine the problem that is built for the class.
//!
//! A network and a prefix leave two things open: which of several acts that act alike an edge has, and
//! the order of acts. In a problem that is built, acts are in the order of the first edges that have
//! them, and each act is as the lines at the ends of its first edge write it. There is only one such
//! problem.
#![tactic(auto)]

ghost use Rattle.class_laws.specs.Laws.{BuiltProblemIsOne};

/// Two problems that are built for a class of a network are equal.
pub fn built_problem_is_one()
    ensures { BuiltProblemIsOne }
{}
