//! What a community list permits.

ghost use Rattle.std.specs.Prelude.{◌≡◌, ◌∷◌, []};
ghost use Rattle.std.specs.List.{list_all};
ghost use Rattle.base_kit.specs.Sets.{has};
ghost use Rattle.cfg_ast.specs.meaning.Lists.{line_holds, line_is, community_list_permits, community_list_permits_exactly};

use base_kit::NumSet;
use cfg_ast::{CommunityLine, CommunityList};

fn holds(line: &CommunityLine, comms: &NumSet) -> bool
    ensures { result ≡ line_holds comms.now line.now }
{
    line.comms.as_slice().iter().all(|c| comms.has(*c))
}

fn names_all(line: &CommunityLine, comms: &NumSet) -> bool
    ensures { result ≡ list_all (λ c. has line.now.comms c) comms.now }
{
    comms.as_slice().iter().all(|c| line.comms.has(*c))
}

fn is_exact(line: &CommunityLine, comms: &NumSet) -> bool
    ensures { result ≡ line_is comms.now line.now }
{
    holds(line, comms) && names_all(line, comms)
}

fn holds_alone(line: &CommunityLine, community: u32) -> bool
    ensures { result ≡ line_holds (community ∷ []) line.now }
{
    line.comms
        .as_slice()
        .iter()
        .all(|c| [community].contains(c))
}

/// Whether the list permits a route with these communities: the first line all of whose communities
/// are among them decides.
pub fn permits(list: &CommunityList, comms: &NumSet) -> bool
    ensures { result ≡ community_list_permits list.now comms.now }
{
    for line in list.lines.as_slice() {
        if holds(line, comms) {
            return line.permit;
        }
    }
    false
}

/// Whether the first line that names exactly these communities permits.
pub fn permits_exact(list: &CommunityList, comms: &NumSet) -> bool
    ensures { result ≡ community_list_permits_exactly list.now comms.now }
{
    for line in list.lines.as_slice() {
        if is_exact(line, comms) {
            return line.permit;
        }
    }
    false
}

/// Whether the list permits a route that carries this community alone.
pub fn permits_alone(list: &CommunityList, community: u32) -> bool
    ensures { result ≡ community_list_permits list.now (community ∷ []) }
{
    for line in list.lines.as_slice() {
        if holds_alone(line, community) {
            return line.permit;
        }
    }
    false
}
