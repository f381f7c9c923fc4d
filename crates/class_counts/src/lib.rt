//! A law of the number of classes. The function does nothing: its contract is the law.
#![tactic(auto)]

ghost use Rattle.class_counts.specs.Counts.{FewClasses};

/// A network that some text gives has few classes, so that each has a number of at most nine digits.
pub fn few_classes()
    ensures { FewClasses }
{}
