//! Calls on lists and route maps.

ghost use Rattle.std.specs.Prelude.{◌≡◌, IfOk, option_copied};
ghost use Rattle.cfg_ast.specs.meaning.Lists.{community_list_permits, community_list_permits_exactly};
ghost use Rattle.cfg_ast.specs.meaning.PrefixLists.{prefix_list_permits};
ghost use Rattle.route_maps.specs.Maps.{import_of, verdict};
ghost use Rattle.route_maps.specs.Printable.{IsPrintable};
ghost use Rattle.specialize.specs.OnePrefix.{plain_of};
ghost use Rattle.specialize.specs.Printable.{HasPrintableMaps};

use base_kit::{NoMemory, NumSet, Prefix, Text};
use cfg_ast::{CommunityList, PrefixList, Router};
use community_lists::permits_exact;
use route_maps::{Imported, Plain, Verdict, apply, import};
use specialize::policy;
use std::alloc::Global;

/// Whether a prefix list permits a prefix.
pub fn permits_prefix(list: &PrefixList, p: Prefix) -> bool
    ensures { result ≡ prefix_list_permits list.now p }
{
    prefix_lists::permits(list, p)
}

/// Whether a community list permits a set of communities.
pub fn permits_set(list: &CommunityList, comms: &NumSet) -> bool
    ensures { result ≡ community_list_permits list.now comms.now }
{
    community_lists::permits(list, comms)
}

/// Whether a community list permits exactly a set of communities.
pub fn permits_set_exactly(list: &CommunityList, comms: &NumSet) -> bool
    ensures { result ≡ community_list_permits_exactly list.now comms.now }
{
    permits_exact(list, comms)
}

/// What a route map makes of a set of communities.
pub fn verdict_on(alloc: Global, map: &Plain, comms: &NumSet) -> Result<Verdict, NoMemory>
    ensures { IfOk result (λ v. v ≡ verdict map.now.entries comms.now) }
{
    apply(alloc, map, comms)
}

/// What is imported over a session of a route with these communities.
pub fn imported_over(
    alloc: Global,
    out: &Plain,
    sends: bool,
    into: &Plain,
    comms: &NumSet,
) -> Result<Option<Imported>, NoMemory>
    ensures { IfOk result (λ i. i ≡ import_of out.now sends into.now comms.now) }
{
    import(alloc, out, sends, into, comms)
}

/// What a route map of a router means for a prefix.
pub fn map_for(
    alloc: Global,
    router: &Router,
    map: Option<&Text>,
    list: Option<&Text>,
    p: Prefix,
    inbound: bool,
) -> Result<Plain, NoMemory>
    ensures plain { IfOk result (λ plain. plain ≡ plain_of router.now (option_copied map.entry) (option_copied list.entry) p inbound) }
    ensures printable { HasPrintableMaps router.now → IfOk result IsPrintable }
{
    policy(alloc, router, map, list, p, inbound)
}
