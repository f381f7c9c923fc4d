//! The answers of a class without each one link more.

ghost use Rattle.std.specs.Prelude.{◌≡◌, ◌<◌, ◌≤◌, ◌+◌, ◌^◌, ◌++◌, true, IfOk, OnOk, length, slice_set};
ghost use Rattle.srp_core.specs.Without.{marked_down};
ghost use Rattle.ask_classes.specs.Failing.{is_link_left, link_losses, loss_of_link, trial_line, IsTried, Loss};
ghost use Rattle.ask_classes.specs.Known.{KnowsTrials};
ghost use Rattle.ask_classes.specs.Runs.{IsLinkRun};
ghost use Rattle.ask_classes.specs.Scenes.{IsAsking};
ghost use Rattle.ask_classes.specs.Tries.{StepsOver, trial_of, WritesTrials};

use crate::asking::{Asking, is_marked, with_mark};
use crate::known::Known;
use crate::link_run::LinkRun;
use crate::tally::Tally;
use ask_names::name_at;
use base_kit::NoMemory;
use cfg_ast::Link;
use solution_answers::{Answer, is_yes, put, verdict_word};
use std::alloc::Global;

// Neither the link nor a router at its ends is down.
fn is_link_left(routers: &[bool], links: &[bool], place: usize, link: Link) -> bool
    ensures { result ≡ is_link_left routers.now links.now (place, link) }
{
    !is_marked(links, place)
        && !is_marked(routers, link.low as usize)
        && !is_marked(routers, link.high as usize)
}

// Appends the line of a trial if its answer is not `yes`.
fn put_trial(
    alloc: Global,
    bytes: &mut Vec<u8>,
    asking: &Asking,
    place: usize,
    link: Link,
    run: LinkRun,
    answer: &Answer,
) -> Result<(), NoMemory>
    requires asking { IsAsking asking.now }
    requires place { place < length asking.now.scene.now.links.now }
    requires run { IsLinkRun asking.now.scene.now.links.now (place + 1) run }
    ensures { OnOk result (bytes.new.items ≡ bytes.old.items ++ trial_line (loss_of_link asking.now.problems.now.whole.now.names asking.now.scene.now.links.now asking.now.scene.now.routers_down.now asking.now.scene.now.links_down.now (place, link), trial_of answer.now)) }
{
    if is_yes(answer.verdict) {
        return Ok(());
    }
    let low = name_at(asking.scene.network, link.low);
    let high = name_at(asking.scene.network, link.high);
    let rank = run.rank(asking.scene.links, place, link);
    let word = verdict_word(answer.verdict);
    let line = format!(in alloc; "link {low} {high} {rank} {word}\n")?;
    put(bytes, line.as_bytes())
}

// The answer without a link more. If it is known, nothing is asked.
fn answer_without(
    alloc: Global,
    asking: &Asking,
    known: &Known,
    place: usize,
) -> Result<Answer, NoMemory>
    requires asking { IsAsking asking.now }
    requires known { KnowsTrials asking.now known.now }
    requires place { place < length asking.now.scene.now.links.now }
    ensures { IfOk result (λ answer. (loss : Loss) → loss.down ≡ marked_down asking.now.scene.now.routers_down.now (slice_set asking.now.scene.now.links_down.now place true) → IsTried asking.now.problems.now.whole.now asking.now.asks.now loss (trial_of answer)) }
{
    if is_marked(&known.marks, place) {
        return Ok(known.answer(alloc));
    }
    let more = with_mark(alloc, asking.scene.links_down, place)?;
    asking.without(alloc, asking.scene.routers_down, &more)
}

// Tries the loss of a link, if it is left.
fn try_link(
    alloc: Global,
    bytes: &mut Vec<u8>,
    asking: &Asking,
    known: &Known,
    place: usize,
    link: Link,
    run: LinkRun,
    tally: Tally,
) -> Result<Tally, NoMemory>
    requires asking { IsAsking asking.now }
    requires known { KnowsTrials asking.now known.now }
    requires place { place < length asking.now.scene.now.links.now }
    requires run { IsLinkRun asking.now.scene.now.links.now (place + 1) run }
    requires tried { tally.tried < 2 ^ 32 }
    requires failed { tally.failed ≤ tally.tried }
    requires tied { tally.tied ≤ tally.tried }
    ensures { IfOk result (StepsOver asking.now.problems.now.whole.now asking.now.asks.now (is_link_left asking.now.scene.now.routers_down.now asking.now.scene.now.links_down.now (place, link))
        (loss_of_link asking.now.problems.now.whole.now.names asking.now.scene.now.links.now asking.now.scene.now.routers_down.now asking.now.scene.now.links_down.now (place, link)) bytes.old.items bytes.new.items tally) }
{
    let routers = asking.scene.routers_down;
    let links = asking.scene.links_down;
    if !is_link_left(routers, links, place, link) {
        return Ok(tally);
    }
    let answer = answer_without(alloc, asking, known, place)?;
    put_trial(alloc, bytes, asking, place, link, run, &answer)?;
    Ok(tally.with(&answer))
}

/// Appends the lines of the links without which the answer is not `yes`.
///
/// # Errors
/// Out of memory.
pub(crate) fn put_link_trials(
    alloc: Global,
    bytes: &mut Vec<u8>,
    asking: &Asking,
    known: &Known,
) -> Result<Tally, NoMemory>
    requires asking { IsAsking asking.now }
    requires known { KnowsTrials asking.now known.now }
    ensures { IfOk result (WritesTrials asking.now.problems.now.whole.now asking.now.asks.now
        (link_losses asking.now.problems.now.whole.now.names asking.now.scene.now.links.now asking.now.scene.now.routers_down.now asking.now.scene.now.links_down.now) bytes.old.items bytes.new.items) }
{
    let links = asking.scene.links;
    let mut run = LinkRun::none();
    let mut tally = Tally::none();
    for place in 0..links.len() {
        run = run.with(links, place);
        tally = try_link(alloc, bytes, asking, known, place, links[place], run, tally)?;
    }
    Ok(tally)
}
