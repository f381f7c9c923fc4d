//! Who is shown the solutions.

ghost use Rattle.std.specs.Prelude.{◌≡◌, ◌∷◌, ◌++◌, [], Bool, List, Option, IfOk};
ghost use Rattle.srp_core.specs.declared.route.Route.{Route};
ghost use Rattle.srp_core.specs.Problem.{Problem};
ghost use Rattle.srp_core.specs.Stability.{IsStable};

use base_kit::NoMemory;
use shared_routes::SharedLabels;

/// Is shown stable labels of a problem, one after the other.
pub trait Visitor {
    /// What it is to do with the labels.
    type Task;

    /// What it is to do with the labels, which stays.
    ghost task: { Self → Self.Task };

    /// The problem whose labels it is shown.
    ghost problem: { Self → Problem };

    /// What may be said of it once it has seen some labels, in this order.
    ghost Saw: { Self → List (List (Option Route)) → Type 0 };

    /// Whether it wants to see more.
    ghost wants: { Self → Bool };

    /// The next stable labels.
    fn see(&mut self, labels: &SharedLabels) -> Result<(), NoMemory>
        requires { IsStable (problem self.old) labels.now }
        ensures problem { IfOk result (λ _. problem self.new ≡ problem self.old) }
        ensures task { IfOk result (λ _. task self.new ≡ task self.old) }
        ensures saw { IfOk result (λ _. (found : List (List (Option Route))) → Saw self.old found → Saw self.new (found ++ labels.now ∷ [])) };

    /// Whether it wants to see more labels.
    fn wants_more(&self) -> bool
        ensures { result ≡ wants self.now };
}
