//! The check of a network: each kind of fault in turn, and the least one.

ghost use Rattle.std.specs.Prelude.{◌≡◌, IfOk, IfErr, Ok, flat_map};
ghost use Rattle.cfg_ast.specs.text.Answers.{RefusesAs};
ghost use Rattle.cfg_ast.specs.meaning.Meaning.{meaning_faults, least_fault, judged};
ghost use Rattle.cfg_ast.specs.meaning.PolicyFaults.{mentions_of};
ghost use Rattle.cfg_ast.specs.text.Reading.{IsGiven};

use crate::addresses::shared_address;
use crate::area::area_faults;
use crate::checked::Checked;
use crate::communities::{all_mentions, communities, hashing_of_mentions, too_many_communities};
use crate::deletions::delete_list_form;
use crate::hashing::hashing_of_area;
use crate::least::with_fault;
use crate::limits::{too_many_neighbors, too_many_routers};
use crate::names::shared_name;
use crate::overlaps::overlapping_interfaces;
use crate::pairs::too_many_links;
use crate::prepends::{prepend_form, prepend_in};
use crate::processes::{internal_peer, mixed_protocols, other_area, shared_as};
use crate::undefined::{undefined_list, undefined_map};
use base_kit::NoMemory;
use cfg_ast::{Fault, Kind, Mention, Network, ReadRefusal};
use number_hashing::NumberHashing;
use std::alloc::Global;

// The least fault of the meaning of the network, whose lines have these mentions. Communities are hashed as
// given.
fn least_fault(
    alloc: Global,
    network: &Network,
    mentions: &[Mention],
    hashing: NumberHashing,
) -> Result<Option<Fault>, NoMemory>
    requires { mentions.now ≡ flat_map mentions_of network.now.routers }
    ensures { IfOk result (λ fault. fault ≡ least_fault (meaning_faults network.now)) }
{
    let routers = network.routers.as_slice();
    let least = with_fault(None, Kind::SharedName, shared_name(alloc, routers)?);
    let least = with_fault(least, Kind::SharedAs, shared_as(alloc, routers)?);
    let least = with_fault(least, Kind::InternalPeer, internal_peer(routers));
    let least = with_fault(least, Kind::MixedProtocols, mixed_protocols(routers));
    let least = with_fault(least, Kind::OtherArea, other_area(routers));
    let least = with_fault(least, Kind::UndefinedMap, undefined_map(alloc, routers)?);
    let least = with_fault(least, Kind::UndefinedList, undefined_list(alloc, routers)?);
    let least = with_fault(
        least,
        Kind::DeleteListForm,
        delete_list_form(alloc, routers)?,
    );
    let least = with_fault(least, Kind::SharedAddress, shared_address(alloc, routers)?);
    let overlapping = overlapping_interfaces(alloc, routers)?;
    let least = with_fault(least, Kind::OverlappingInterfaces, overlapping);
    let in_area = area_faults(alloc, routers)?;
    let least = with_fault(least, Kind::LoopbackMask, in_area.wide_loopback);
    let least = with_fault(least, Kind::NoCost, in_area.no_cost);
    let least = with_fault(least, Kind::TooManyRouters, too_many_routers(routers));
    let communities = too_many_communities(alloc, hashing, mentions)?;
    let least = with_fault(least, Kind::TooManyCommunities, communities);
    let least = with_fault(least, Kind::TooManyNeighbors, too_many_neighbors(routers));
    let least = with_fault(
        least,
        Kind::TooManyLinks,
        too_many_links(alloc, hashing_of_area(routers), routers)?,
    );
    let least = with_fault(least, Kind::PrependForm, prepend_form(routers));
    let least = with_fault(least, Kind::PrependIn, prepend_in(alloc, routers)?);
    Ok(least)
}

/// Checks the meaning of a network that some text gives.
///
/// It refuses at the least line with a fault; if that line has several faults, the first kind in the
/// order of `Kind` decides. After a refusal, or if memory runs out, the network is dropped.
pub fn check_network(alloc: Global, network: Network) -> Result<Checked, ReadRefusal>
    requires { IsGiven network }
    ensures ok { IfOk result (λ checked. checked.network ≡ network) }
    ensures accepted { IfOk result (λ checked. judged network ≡ Ok network) }
    ensures refused { IfErr result (λ refusal. RefusesAs refusal (judged network)) }
{
    let mentions = all_mentions(alloc, network.routers.as_slice())?;
    let hashing = hashing_of_mentions(mentions.as_slice());
    match least_fault(alloc, &network, mentions.as_slice(), hashing)? {
        Some(fault) => Err(ReadRefusal::At {
            line: fault.line,
            kind: fault.kind,
        }),
        None => {
            let communities = communities(alloc, hashing, mentions.as_slice())?;
            Ok(Checked::new(network, communities))
        }
    }
}
