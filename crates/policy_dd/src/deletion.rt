//! What an entry deletes and leaves.

ghost use Rattle.std.specs.Prelude.{◌≡◌, ℕ, IfOk, nat_eq, if◌then◌else◌};
ghost use Rattle.base_kit.specs.Sets.{has};
ghost use Rattle.policy_dd.specs.Deletion.{AnswersAlone, IsWithLine, IsLeftBy, keeps_rest};

use base_kit::{NoMemory, NumSet};
use cfg_ast::{Change, CommunityLine};
use route_maps::PlainEntry;
use std::alloc::Global;

/// An answer for each community: one for all, and for the odd ones the other one.
#[derive(Drop)]
pub struct Answers {
    pub all: bool,
    pub odd: NumSet,
}

/// The set with the community put in or taken out.
fn with_answer(odd: NumSet, community: u32, is_odd: bool) -> Result<NumSet, NoMemory>
    ensures { IfOk result (λ r. (c : ℕ) → has r c ≡ (if nat_eq community c then is_odd else has odd c)) }
{
    if is_odd {
        let mut odd = odd;
        odd.add(community)?;
        return Ok(odd);
    }
    let left = odd.without(community)?;
    Ok(left)
}

/// The answers with one line before. A line that names several communities holds for none alone.
fn with_line(alloc: Global, answers: Answers, line: &CommunityLine) -> Result<Answers, NoMemory>
    ensures { IfOk result (IsWithLine line.now answers) }
{
    let communities = line.comms.as_slice();
    if communities.len() > 1 {
        return Ok(answers);
    }
    if communities.is_empty() {
        return Ok(Answers {
            all: line.permit,
            odd: NumSet::new(alloc),
        });
    }
    let odd = with_answer(answers.odd, communities[0], line.permit != answers.all)?;
    Ok(Answers {
        all: answers.all,
        odd,
    })
}

/// The answers of a list to the sets of one community, in one pass from the last line to the first.
fn alone(alloc: Global, lines: &[CommunityLine]) -> Result<Answers, NoMemory>
    ensures { IfOk result (AnswersAlone lines.now) }
{
    let mut answers = Answers {
        all: false,
        odd: NumSet::new(alloc),
    };
    let mut place = lines.len();
    while place > 0 {
        place -= 1;
        answers = with_line(alloc, answers, &lines[place])?;
    }
    Ok(answers)
}

pub fn keeps(change: &Option<Change>) -> bool
    ensures { result ≡ keeps_rest change.now }
{
    match change {
        Some(Change::Clear) => false,
        Some(Change::Replace(_)) => false,
        Some(Change::Append(_)) => true,
        None => true,
    }
}

/// Which communities of a set an entry leaves: first it deletes, and then it changes.
pub fn left_by(alloc: Global, entry: &PlainEntry) -> Result<Answers, NoMemory>
    ensures { IfOk result (IsLeftBy entry.now) }
{
    if !keeps(&entry.change) {
        return Ok(Answers {
            all: false,
            odd: NumSet::new(alloc),
        });
    }
    match &entry.delete {
        None => Ok(Answers {
            all: true,
            odd: NumSet::new(alloc),
        }),
        Some(list) => {
            let deleted = alone(alloc, list.lines.as_slice())?;
            Ok(Answers {
                all: !deleted.all,
                odd: deleted.odd,
            })
        }
    }
}
