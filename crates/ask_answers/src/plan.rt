//! What a request comes to before its classes.

ghost use Rattle.std.specs.Prelude.{◌≡◌, ◌≤◌, IfOk, length};
ghost use Rattle.cfg_ast.specs.meaning.Topology.{links_of};
ghost use Rattle.ask_names.specs.Marks.{AreMarksIn};
ghost use Rattle.ask_names.specs.Networks.{names_of};
ghost use Rattle.ask_answers.specs.Plans.{IsRequestPlan};

use ask_classes::Manner;
use ask_names::{Named, links_lost, marks_of, names_one, routers_lost};
use ask_words::{Request, Task};
use base_kit::NoMemory;
use cfg_ast::{Link, Network};
use std::alloc::Global;

/// How a request writes, what is down, and the routers that its question names.
#[derive(Drop)]
pub struct Plan {
    pub manner: Manner,
    pub routers_down: Vec<bool>,
    pub links_down: Vec<bool>,
    pub named: Named,
}

fn no_names(alloc: Global) -> Named {
    let of = Vec::new(alloc);
    let way = Vec::new(alloc);
    Named { of, way }
}

// The routers that the question of a task names, if it asks one.
fn named_in(alloc: Global, network: &Network, task: &Task) -> Result<Named, NoMemory>
    requires { length network.now.routers ≤ 4096 }
    ensures { IfOk result (AreMarksIn (names_of network.now) task.now) }
{
    match task {
        Task::Answer(asks) => marks_of(alloc, network, asks),
        Task::FailingLinks(asks) => marks_of(alloc, network, asks),
        Task::FailingRouters(asks) => marks_of(alloc, network, asks),
        Task::Count => Ok(no_names(alloc)),
        Task::Solutions => Ok(no_names(alloc)),
        Task::Forwards => Ok(no_names(alloc)),
    }
}

/// What a request comes to. `shows` says whether labels stand behind a `no`.
///
/// # Errors
/// Out of memory.
pub(crate) fn plan_for(
    alloc: Global,
    network: &Network,
    links: &[Link],
    request: &Request,
    shows: bool,
) -> Result<Plan, NoMemory>
    requires routers { length network.now.routers ≤ 4096 }
    requires links { links.now ≡ links_of network.now }
    ensures { IfOk result (IsRequestPlan shows network.now request.now) }
{
    let one = names_one(request.classes);
    let items = request.down.as_slice();
    let routers_down = routers_lost(alloc, network, items)?;
    let links_down = links_lost(alloc, network, links, items)?;
    let named = named_in(alloc, network, &request.task)?;
    Ok(Plan {
        manner: Manner { one, shows },
        routers_down,
        links_down,
        named,
    })
}
