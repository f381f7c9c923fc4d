//! How a question of one's own is carried from the small network to the large one.

ghost use Rattle.library_uses.specs.Asked.{has_one_preference};
ghost use Rattle.workflow_laws.specs.Questions.{EachQuestionCarries};

use std::marker::Brand;
use workflow_laws::each_question_carries;

/// Whether all routes have one preference is answered alike by a network and by what `compress` or `canon` writes
/// of it.
pub fn one_preference_carries()
    ensures { EachQuestionCarries has_one_preference }
{
    each_question_carries::<Brand>();
}
