//! Laws of the definition of reading: where it stops, said line by line.
//!
//! `Reading.antt` of cfg_ast folds lines into a state, as a reader does. `FormFaults.antt` judges each
//! line by the lines before it, with no state. The two agree: a text is refused with the first fault of
//! its lines as such, or else with the fault of form of the first line that has one, or else because the
//! last `end` is missing. And a network that is read is given by the lines of its text, with no fault in
//! its meaning.
#![tactic(auto)]

ghost use Rattle.reading_laws.specs.FormFaults.{FirstFaultDecides, TextFaultDecides};
ghost use Rattle.reading_laws.specs.WellRead.{WhatIsReadIsWell};

/// Reading stops at the first line that has a fault of form, with that fault. Each line is judged by the
/// lines before it.
pub fn first_fault_decides()
    ensures { FirstFaultDecides }
{}

/// A text is refused with the first fault of its lines as such, or else with the first fault of form, or
/// else because the last `end` is missing.
pub fn text_fault_decides()
    ensures { TextFaultDecides }
{}

/// A network that is read is given by the lines of its text, and no fault stands in it.
pub fn what_is_read_is_well()
    ensures { WhatIsReadIsWell }
{}
