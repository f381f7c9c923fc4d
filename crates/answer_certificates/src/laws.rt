//! Laws of answers. The functions do nothing: their contracts are the laws.

ghost use Rattle.answer_certificates.specs.Agreement.{VerifiesWhatIsCertified, VerifiedNamesTheGroups};
ghost use Rattle.answer_certificates.specs.OneAnswer.{VerifyAnswerIsOne};

use certificate_round_trip::{printed_is_read_back, printed_is_short};
use class_laws::built_problem_is_one;
use cut_certificate::laws::colors_are_aside;
use given_laws::given_is_well_formed;
use net_topology::laws::few_links;

/// `verify` has one answer to a network, the number of a class and a certificate that is known.
pub fn verify_answer_is_one()
    ensures { VerifyAnswerIsOne }
{
    built_problem_is_one();
    colors_are_aside();
}

/// `verify` says yes to what `certify` writes of a network that a text gives and in which no fault stands.
pub fn what_is_certified_is_verified()
    ensures { VerifiesWhatIsCertified }
{
    few_links();
    given_is_well_formed();
    printed_is_read_back();
    printed_is_short();
}

/// A text to which `verify` says yes names the groups of the class, the coarsest admissible partition.
pub fn what_is_verified_names_the_groups()
    ensures { VerifiedNamesTheGroups }
{}
