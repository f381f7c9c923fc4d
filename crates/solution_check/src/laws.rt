//! Laws of answers. The functions do nothing: their contracts are the laws.

ghost use Rattle.std.specs.Prelude.{◌≡◌, List, Option};
ghost use Rattle.srp_core.specs.declared.route.Route.{Route};
ghost use Rattle.srp_core.specs.Alike.{ProblemsAlike};
ghost use Rattle.srp_core.specs.Problem.{Problem, IsProblem};
ghost use Rattle.srp_core.specs.Stability.{AreLabels};
ghost use Rattle.solution_check.specs.declared.judgement.Answer.{Answer};
ghost use Rattle.solution_check.specs.Breaks.{Judges};

/// Labels have one answer, which problems that are alike share.
pub fn one_answer()
    ensures { (first second : Problem) (labels : List (Option Route)) → IsProblem first → ProblemsAlike first second → AreLabels first labels
        → (a b : Answer) → Judges first labels a → Judges second labels b → a ≡ b }
{}
