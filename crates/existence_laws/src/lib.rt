//! Each class has a problem, each problem has a graph, and each graph has a certificate. These laws do
//! not depend on the memory of a computer.
//!
//! The program makes each of them, or says that memory ran out. These laws say that each of them exists
//! in any case. Each law is the contract of a function that does nothing.
#![tactic(auto)]

ghost use Rattle.existence_laws.specs.Laws.{EachClassHasProblem, EachGraphHasCertificate, EachProblemHasGraph};

use srp_build::laws::samples_give_problems;

/// Each class of a network that a text gives, and that has no fault, has a problem.
pub fn each_class_has_problem()
    ensures { EachClassHasProblem }
{
    samples_give_problems();
}

/// Each problem has a graph of acting edges, whose colors tell its starts apart.
pub fn each_problem_has_graph()
    ensures { EachProblemHasGraph }
{}

/// Each graph of acting edges has a certificate of its coarsest partition, with no more splits than routers.
pub fn each_graph_has_certificate()
    ensures { EachGraphHasCertificate }
{}
