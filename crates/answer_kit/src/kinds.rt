//! The names of the kinds of faults.

ghost use Rattle.std.specs.Prelude.{◌≡◌};
ghost use Rattle.answer_kit.specs.Kinds.{name_of_kind};

use cfg_ast::Kind;

/// The name of a kind of fault.
pub fn name_of_kind(kind: Kind) -> &'static str
    ensures { result.now ≡ name_of_kind kind }
{
    match kind {
        Kind::NotAscii => "NotAscii",
        Kind::LineTooLong => "LineTooLong",
        Kind::TooManyLines => "TooManyLines",
        Kind::UnknownLine => "UnknownLine",
        Kind::Unsupported => "Unsupported",
        Kind::BadForm => "BadForm",
        Kind::WellKnown => "WellKnown",
        Kind::Misplaced => "Misplaced",
        Kind::Repeated => "Repeated",
        Kind::NoHostname => "NoHostname",
        Kind::NoEnd => "NoEnd",
        Kind::SharedName => "SharedName",
        Kind::SharedAs => "SharedAs",
        Kind::InternalPeer => "InternalPeer",
        Kind::MixedProtocols => "MixedProtocols",
        Kind::OtherArea => "OtherArea",
        Kind::UndefinedMap => "UndefinedMap",
        Kind::UndefinedList => "UndefinedList",
        Kind::DeleteListForm => "DeleteListForm",
        Kind::SharedAddress => "SharedAddress",
        Kind::OverlappingInterfaces => "OverlappingInterfaces",
        Kind::LoopbackMask => "LoopbackMask",
        Kind::NoCost => "NoCost",
        Kind::TooManyRouters => "TooManyRouters",
        Kind::TooManyCommunities => "TooManyCommunities",
        Kind::TooManyNeighbors => "TooManyNeighbors",
        Kind::TooManyLinks => "TooManyLinks",
        Kind::PrependForm => "PrependForm",
        Kind::PrependIn => "PrependIn",
    }
}
