//! Law: the members that are printed are read back.

ghost use Rattle.cfg_round_trip.specs.MemberLaws.{MembersAreReadBack};

/// The names that are printed for each router are its members in the text.
pub fn members_are_read_back()
    ensures { MembersAreReadBack }
{}
