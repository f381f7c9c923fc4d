//! The command `canon`.

ghost use Rattle.std.specs.Prelude.{◌≡◌, IfOk, IfErr, Contains};
ghost use Rattle.cfg_ast.specs.meaning.Classes.{classes_of};
ghost use Rattle.answer_groups.specs.CanonText.{no_canon, IsCanonicalFor, IsWithoutCanon, IsCanonOf};
ghost use Rattle.answer_kit.specs.Outcome.{refused};
ghost use Rattle.answer_kit.specs.Replies.{Answers, Only};
ghost use Rattle.cfg_ast.specs.meaning.PolicyFaults.{communities_of};
ghost use Rattle.compress_laws.specs.Laws.{FitsClass};
ghost use Rattle.srp_build.specs.Built.{IsBuiltFor};

use crate::emission::told;
use answer_kit::{Reply, refuse, router_name};
use base_kit::Edge;
use canon_policy::{CanonSrpRefusal, canon_srp};
use cfg_ast::DestClass;
use cfg_check::Checked;
use dd_core::Store;
use driver::{Shared, emitted_of};
use srp_core::Srp;
use std::alloc::Global;

// The refusal of a class, because this edge of its problem has no canonical lists.
fn no_canon(alloc: Global, problem: &Srp, edge: &Edge) -> Reply
    ensures { Answers result (Only (refused (no_canon problem.now edge.now))) ⊥ ⊥ }
{
    let importer = router_name(problem, edge.importer);
    let exporter = router_name(problem, edge.exporter);
    refuse(format!(in alloc; "NoCanon {importer} {exporter}"))
}

// The problem of a class with canonical acts, or the reply to report if an edge has no canonical lists.
fn canonical_of(
    alloc: Global,
    checked: &Checked,
    class: &DestClass,
    problem: Srp,
    store: &mut Store,
) -> Result<Srp, Reply>
    requires class { Contains (classes_of checked.now.network) class.now }
    requires built { IsBuiltFor checked.now.network class.now problem }
    requires universe { store.old.universe ≡ communities_of checked.now.network }
    ensures universe { store.new.universe ≡ communities_of checked.now.network }
    ensures problem { IfOk result (IsCanonicalFor checked.now.network class.now) }
    ensures fits { IfOk result (FitsClass checked.now.network class.now) }
    ensures none { IfErr result (λ reply. Answers reply (IsWithoutCanon checked.now.network class.now) ⊥ ⊥) }
{
    given_laws::given_is_well_formed();
    compress_laws::laws::built_fits();
    match canon_srp(alloc, &problem, store) {
        Ok(canonical) => {
            let _known = canonical.count();
            Ok(canonical)
        }
        Err(CanonSrpRefusal::NoCanon(place)) => {
            let edge = &problem.edges()[place as usize];
            Err(no_canon(alloc, &problem, edge))
        }
        Err(CanonSrpRefusal::Memory) => Err(Reply::NoMemory),
    }
}

/// The same as `answer`, for a class whose problem this is. The store's universe has the communities that
/// the network names. It stays, and the store may grow.
pub fn answer_of(
    alloc: Global,
    checked: &Checked,
    class: &DestClass,
    problem: Srp,
    store: &mut Store,
) -> Reply
    requires class { Contains (classes_of checked.now.network) class.now }
    requires built { IsBuiltFor checked.now.network class.now problem }
    requires universe { store.old.universe ≡ communities_of checked.now.network }
    ensures universe { store.new.universe ≡ communities_of checked.now.network }
    ensures answers { Answers result (IsCanonOf checked.now.network class.now) ⊥ ⊥ }
{
    match canonical_of(alloc, checked, class, problem, store) {
        Ok(canonical) => {
            let emitted = emitted_of(alloc, checked, class, canonical);
            told(alloc, emitted)
        }
        Err(reply) => reply,
    }
}

/// The network of the groups of a class, as configurations with canonical maps, or the names of the importer
/// and the exporter of the first edge whose import has no canonical lists.
pub fn answer(alloc: Global, checked: &Checked, class: &DestClass) -> Reply
    requires { Contains (classes_of checked.now.network) class.now }
    ensures { Answers result (IsCanonOf checked.now.network class.now) ⊥ ⊥ }
{
    let Ok(mut shared) = Shared::of(alloc, checked) else {
        return Reply::NoMemory;
    };
    let Ok(problem) = shared.problem(alloc, checked, class) else {
        return Reply::NoMemory;
    };
    answer_of(alloc, checked, class, problem, &mut shared.store)
}
