//! Which of the links between its routers a link is.

ghost use Rattle.std.specs.Prelude.{◌≡◌, ℕ, ◌+◌, ◌<◌, List, count_by, length};
ghost use Rattle.cfg_ast.specs.declared.topology.Link.{Link};
ghost use Rattle.ask_classes.specs.Failing.{has_same_ends, link_rank};
ghost use Rattle.ask_classes.specs.Runs.{IsLinkRun};

use cfg_ast::Link;

/// Of the first links: the highest router that is the lower end of one, and a place before which no link is of it.
/// Where links stand by their lower ends, it is that of the first link of that router.
#[derive(Clone, Copy)]
pub(crate) struct LinkRun {
    pub(crate) highest: u32,
    pub(crate) first: usize,
}

// How many of the links have the ends of this one.
fn count_between(links: &[Link], link: Link) -> usize
    ensures { result ≡ count_by (has_same_ends link) links.now }
{
    links
        .iter()
        .filter(|other| link.low == other.low && link.high == other.high)
        .count()
}

impl LinkRun {
    /// Of no links.
    pub(crate) fn none() -> LinkRun
        ensures { (links : List Link) → IsLinkRun links 0 result }
    {
        LinkRun {
            highest: 0,
            first: 0,
        }
    }

    /// Of one link more.
    pub(crate) fn with(self, links: &[Link], place: usize) -> LinkRun
        requires place { place < length links.now }
        requires run { IsLinkRun links.now place self }
        ensures { IsLinkRun links.now (place + 1) result }
    {
        let low = links[place].low;
        if low > self.highest {
            LinkRun {
                highest: low,
                first: place,
            }
        } else {
            self
        }
    }

    /// Which of the links between its routers the last of these links is, counted from 1.
    pub(crate) fn rank(self, links: &[Link], place: usize, link: Link) -> usize
        requires place { place < length links.now }
        requires run { IsLinkRun links.now (place + 1) self }
        ensures { result ≡ link_rank links.now place link }
    {
        if link.low < self.highest {
            return count_between(&links[..place + 1], link);
        }
        count_between(&links[self.first..place + 1], link)
    }
}
