//! What holds of a problem and its quotient: no admissible partition makes the quotient by the coarsest
//! partition any smaller, and this quotient answers questions for the problem.
//!
//! An admissible partition of the quotient, carried back along the groups, is one of the problem: members of one
//! group have edges that act alike into the same other groups. So it is no coarser than the groups themselves, and
//! puts no two of them together. And questions that are asked of groups, or of routers and the groups that they are
//! in, have one answer in both. Each law is the contract of a function that does nothing.
#![tactic(auto)]

ghost use Rattle.quotient_laws.specs.Laws.{QuotientIsSmallest};
ghost use Rattle.quotient_laws.specs.Links.{QuotientHasNoMoreLinks};
ghost use Rattle.quotient_laws.specs.Numbered.{EachHasGroups};
ghost use Rattle.quotient_laws.specs.Questions.{GroupQuestionCarries, IsOfPictures, Picture, PicturesAgree, QuestionsCarry};

use abstract_net::laws::no_more_links;
use srp_core::laws::{from_quotient, joins, to_quotient};
use std::marker::Brand;

/// Each problem has a coarsest admissible partition, with its groups numbered by their least members.
pub fn each_has_groups()
    ensures { EachHasGroups }
{
    joins();
}

/// The links of the groups are no more than those of the network.
pub fn groups_have_no_more_links()
    ensures { QuotientHasNoMoreLinks }
{
    no_more_links();
}

/// An admissible partition of the quotient by the coarsest partition puts no two routers together.
pub fn quotient_is_smallest()
    ensures { QuotientIsSmallest }
{}

/// Each stable solution of either problem shows the same of the groups, the keys that they hold and the groups to
/// which they forward, as some stable solution of the other one.
pub fn pictures_agree()
    ensures { PicturesAgree }
{
    to_quotient();
    from_quotient();
}

/// Reachability, path length and waypoints are asked of the routers of groups. They hold of every stable
/// solution of the one problem exactly if they hold of every one of the other, and of some exactly if
/// they hold of some.
pub fn questions_carry()
    ensures { QuestionsCarry }
{
    to_quotient();
    from_quotient();
}

/// A question about the keys that groups hold and about the groups to which they forward. Pictures that
/// show the same have the same answer. Whoever has a question calls a law with the marker `Brand` and
/// picks the two members.
pub trait AsksOfGroups {
    ghost asks: { Picture → Type 0 };

    ghost one_answer: { IsOfPictures asks };
}

impl AsksOfGroups for Brand {
    ghost asks = { λ picture. Unit {0} };

    ghost one_answer = { λ first second same holds. holds };
}

/// Each question about groups holds of every stable solution of the one problem exactly if it holds of
/// every one of the other, and of some exactly if it holds of some.
pub fn group_question_carries<Q: AsksOfGroups>()
    ensures { GroupQuestionCarries Q.asks }
{
    pictures_agree();
}
