//! Laws of classes and of the problems that are built for them. Each law is the contract of a function
//! that does nothing: whoever needs one calls it.

ghost use Rattle.srp_build.specs.Exists.{SamplesGiveProblems};
ghost use Rattle.srp_build.specs.Laws.{NoClassWithoutProcess, MapsOfClass, FirstDecidesLone, ActsPrint, ActsStayWithin};

use given_laws::given_is_well_formed;
use net_topology::laws::few_links;

/// A network without a `router` line has no class.
pub fn no_class_without_process()
    ensures { NoClassWithoutProcess }
{}

/// The maps of a router mean the same for all prefixes of a class, since they ask only prefix lists
/// about a prefix.
pub fn maps_of_class()
    ensures { MapsOfClass }
{}

/// Suppose that a first import accepts something, and that the routes which it and each of two others
/// accept have one preference. Then the routes of these two others have one preference too.
pub fn first_decides_lone()
    ensures { FirstDecidesLone }
{}

/// The acts of a problem can be printed if the maps of the network can.
pub fn acts_print()
    ensures { ActsPrint }
{}

/// The acts of a problem name only communities that the network names.
pub fn acts_stay_within()
    ensures { ActsStayWithin }
{}

/// If finitely many sets of communities decide what sessions import, each class of a network that a text
/// gives and that has no fault has a problem.
pub fn samples_give_problems()
    ensures { SamplesGiveProblems }
{
    few_links();
    given_is_well_formed();
}
