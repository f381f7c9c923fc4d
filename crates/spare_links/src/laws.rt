//! What is known of a problem without one of the links that are spare. The law is the contract of a function that does
//! nothing: whoever needs it calls it.

ghost use Rattle.spare_links.specs.Spare.{SpareLinksKeepVerdicts};

use asking_laws::{no_tie_holds, none_becomes_lone, one_is_all, spare_links_bring_no_tie};
use question_laws::spare_links_keep_answers;

/// Without a link that is spare a verdict stays that is kept.
pub fn spare_links_keep_verdicts()
    ensures { SpareLinksKeepVerdicts }
{
    none_becomes_lone();
    one_is_all();
    no_tie_holds();
    spare_links_bring_no_tie();
    spare_links_keep_answers();
}
