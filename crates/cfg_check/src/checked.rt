//! A network in which no fault stands.

ghost use Rattle.std.specs.Prelude.{◌≡◌, ◌≤◌, length};
ghost use Rattle.cfg_ast.specs.meaning.PolicyFaults.{communities_of};
ghost use Rattle.cfg_ast.specs.meaning.RouterFaults.{protocol_of, area_of};
ghost use Rattle.cfg_ast.specs.text.Reading.{IsGiven};
ghost use Rattle.cfg_check.specs.Faultless.{IsFaultless};

use crate::processes::{first_area, first_protocol};
use base_kit::{NumSet, Protocol};
use cfg_ast::Network;

/// A network that some text gives, and in whose meaning no fault stands.
#[derive(Drop)]
pub struct Checked {
    network: Network,
    communities: NumSet,
    pub ghost given: { ∥ IsGiven network ∥₁ },
    pub ghost faultless: { IsFaultless network },
    pub ghost named: { communities ≡ communities_of network },
}

impl Checked {
    pub(crate) fn new(network: Network, communities: NumSet) -> Checked
        requires given { IsGiven network }
        requires faultless { IsFaultless network }
        requires named { communities ≡ communities_of network }
        ensures { result.network ≡ network }
    {
        Checked {
            network,
            communities,
        }
    }

    /// The network. No fault of any kind stands in it, so it has few routers.
    #[tactic(auto, using(crate::proofs::Faultless::few_routers))]
    pub fn network(&self) -> &Network
        ensures same { result.now ≡ self.now.network }
        ensures faultless { IsFaultless result.now }
        ensures few_routers { length result.now.routers ≤ 4096 }
    {
        &self.network
    }

    /// All communities that the lines of the network name.
    pub fn communities(&self) -> &NumSet
        ensures { result.now ≡ communities_of self.now.network }
    {
        &self.communities
    }

    /// The protocol of the `router` lines, `None` where there are none.
    pub fn protocol(&self) -> Option<Protocol>
        ensures { result ≡ protocol_of self.now.network }
    {
        first_protocol(self.network.routers.as_slice())
    }

    /// The area of the OSPF `network` lines, `None` where there are none.
    pub fn area(&self) -> Option<u32>
        ensures { result ≡ area_of self.now.network }
    {
        first_area(self.network.routers.as_slice())
    }
}
