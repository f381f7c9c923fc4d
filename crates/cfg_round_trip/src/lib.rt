//! Laws of printing and reading: what is printed of a network is read back.
//!
//! The laws speak only of two definitions: the printed text, and the network of a text. A caller that
//! has both by contract calls the law that it needs.
#![tactic(auto)]

mod members;

ghost use Rattle.cfg_round_trip.specs.Laws.{GivenIsReadBack, GivenLinesAreShort, NumbersAreAside, PrintedIsReadBack, ShortNamesGiveShortLines};

pub use members::members_are_read_back;

/// Lines that are the same except for their numbers give networks that are the same except for line
/// numbers.
pub fn numbers_are_aside()
    ensures { NumbersAreAside }
{}

/// The printed text of a well-formed network is read as the same network except for line numbers, if the
/// text has at most 1,000,000 lines of at most 1,024 bytes.
pub fn printed_is_read_back()
    ensures { PrintedIsReadBack }
{}

/// The printed lines of a well-formed network have at most 1,024 bytes, if the match lines of its route
/// maps have no more.
pub fn short_names_give_short_lines()
    ensures { ShortNamesGiveShortLines }
{}

/// If some text gives a network, as is known of each checked one, its printed lines have at most 1,024
/// bytes.
pub fn given_lines_are_short()
    ensures { GivenLinesAreShort }
{}

/// What is printed of such a network is read back, if it has at most 1,000,000 lines.
pub fn given_is_read_back()
    ensures { GivenIsReadBack }
{}
