//! Calls of laws of texts.

ghost use Rattle.cfg_ast.specs.text.Reading.{IsGiven};
ghost use Rattle.given_laws.specs.Laws.{PlacesAreInOrder};
ghost use Rattle.cfg_round_trip.specs.Laws.{HasFewLines, IsReadBack};
ghost use Rattle.cfg_round_trip.specs.Notes.{AreNotes};

use cfg_ast::{Network, Notes};
use cfg_round_trip::given_is_read_back;
use given_laws::given_places_are_in_order;

/// The interfaces and neighbours of a network that a text gives stand in the order of their lines.
pub fn is_in_order(network: &Network)
    requires known { ∥ IsGiven network.now ∥₁ }
    ensures { PlacesAreInOrder network.now }
{
    given_places_are_in_order();
}

/// The printed text of such a network is read back as the same network except for line numbers.
pub fn reads_back(network: &Network, notes: &Notes)
    requires known { ∥ IsGiven network.now ∥₁ }
    requires noted { AreNotes network.now notes.now }
    requires few { HasFewLines network.now notes.now }
    ensures { IsReadBack network.now notes.now }
{
    given_is_read_back();
}
