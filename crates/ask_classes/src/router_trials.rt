//! The answers of a class without each one router more.

ghost use Rattle.std.specs.Prelude.{◌≡◌, ◌<◌, ◌≤◌, ◌^◌, ◌++◌, IfOk, OnOk, length};
ghost use Rattle.ask_classes.specs.Failing.{is_router_left, loss_of_router, router_losses, trial_line};
ghost use Rattle.ask_classes.specs.Scenes.{IsAsking};
ghost use Rattle.ask_classes.specs.Tries.{StepsOver, trial_of, WritesTrials};
ghost use Rattle.ask_names.specs.Networks.{names_of};
ghost use Rattle.ask_names.specs.Routers.{name_at};

use crate::asking::{Asking, is_marked, with_mark};
use crate::tally::Tally;
use ask_names::name_at;
use base_kit::NoMemory;
use solution_answers::{Answer, is_yes, put, verdict_word};
use std::alloc::Global;

// Appends the line of a trial if its answer is not `yes`.
fn put_trial(
    alloc: Global,
    bytes: &mut Vec<u8>,
    asking: &Asking,
    router: u32,
    answer: &Answer,
) -> Result<(), NoMemory>
    ensures { OnOk result (bytes.new.items ≡ bytes.old.items ++ trial_line (
      loss_of_router asking.now.scene.now.routers_down.now asking.now.scene.now.links_down.now
          (router, name_at (names_of asking.now.scene.now.network.now) router),
      trial_of answer.now,
    )) }
{
    if is_yes(answer.verdict) {
        return Ok(());
    }
    let name = name_at(asking.scene.network, router);
    let word = verdict_word(answer.verdict);
    let line = format!(in alloc; "router {name} {word}\n")?;
    put(bytes, line.as_bytes())
}

// Tries the loss of a router, if it is left.
fn try_router(
    alloc: Global,
    bytes: &mut Vec<u8>,
    asking: &Asking,
    router: u32,
    tally: Tally,
) -> Result<Tally, NoMemory>
    requires asking { IsAsking asking.now }
    requires router { router < length asking.now.scene.now.network.now.routers }
    requires tried { tally.tried < 2 ^ 32 }
    requires failed { tally.failed ≤ tally.tried }
    requires tied { tally.tied ≤ tally.tried }
    ensures { IfOk result (StepsOver asking.now.problems.now.whole.now asking.now.asks.now (is_router_left asking.now.scene.now.routers_down.now (router, name_at (names_of asking.now.scene.now.network.now) router))
        (loss_of_router asking.now.scene.now.routers_down.now asking.now.scene.now.links_down.now (router, name_at (names_of asking.now.scene.now.network.now) router)) bytes.old.items bytes.new.items tally) }
{
    let routers = asking.scene.routers_down;
    let links = asking.scene.links_down;
    if is_marked(routers, router as usize) {
        return Ok(tally);
    }
    let more = with_mark(alloc, routers, router as usize)?;
    let answer = asking.without(alloc, &more, links)?;
    put_trial(alloc, bytes, asking, router, &answer)?;
    Ok(tally.with(&answer))
}

/// Appends the lines of the routers without which the answer is not `yes`.
///
/// # Errors
/// Out of memory.
pub(crate) fn put_router_trials(
    alloc: Global,
    bytes: &mut Vec<u8>,
    asking: &Asking,
) -> Result<Tally, NoMemory>
    requires { IsAsking asking.now }
    ensures { IfOk result (WritesTrials asking.now.problems.now.whole.now asking.now.asks.now
        (router_losses asking.now.problems.now.whole.now.names asking.now.scene.now.routers_down.now asking.now.scene.now.links_down.now) bytes.old.items bytes.new.items) }
{
    let mut tally = Tally::none();
    for place in 0..asking.scene.network.routers.len() {
        tally = try_router(alloc, bytes, asking, place as u32, tally)?;
    }
    Ok(tally)
}
