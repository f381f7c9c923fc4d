//! Places as numbers of 32 bits.

ghost use Rattle.std.specs.Prelude.{◌≡◌, ◌<◌, ◌^◌};
ghost use Rattle.net_topology.specs.FewPlaces.{HasFewPlaces};

use cfg_check::Checked;
use given_laws::given_places_are_in_order;

/// A place as a number of 32 bits.
pub(crate) fn place(i: usize) -> u32
    requires { i < 2 ^ 32 }
    ensures { result ≡ i }
{
    i as u32
}

/// The places of a network that some text gives fit in 32 bits.
pub(crate) fn places_are_few(net: &Checked)
    ensures { HasFewPlaces net.now.network.routers }
{
    given_places_are_in_order();
}
