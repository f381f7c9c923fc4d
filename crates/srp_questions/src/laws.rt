//! Laws of questions. The functions do nothing: their contracts are the laws.

ghost use Rattle.srp_questions.specs.Laws.{KeysDecide, VerdictIsOne};

/// Stable labels with equal keys answer alike: questions ask of keys and of forwarding, and keys decide
/// forwarding.
pub fn keys_decide()
    ensures { KeysDecide }
{}

/// A question about a problem has one verdict.
pub fn verdict_is_one()
    ensures { VerdictIsOne }
{}
