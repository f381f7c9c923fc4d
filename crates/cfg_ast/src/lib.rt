//! The configurations of a network as plain records, and what they mean.
//!
//! The types say what the lines of a text give; each item carries the number of its line. Beside them,
//! in `specs/`, stand the definitions that every contract of the other crates cites: the lines and
//! words of a text, the item of a line, the network of a text and its faults, the links, the lists, the
//! route maps and the destination classes. No code of another crate decides what these mean.
#![tactic(auto)]

mod bgp;
mod classes;
mod heads;
mod interface;
mod items;
mod line;
mod lookups;
mod network;
mod ospf;
mod policy;
mod refusal;
mod topology;

pub use bgp::{Base, BgpProcess, Neighbor, NetLine};
pub use classes::{DestClass, Origin};
pub use heads::{HeadClass, PolicyForm, RouterForm};
pub use interface::{Address, Interface};
pub use items::{PolicyItem, PolicyScope, RouterItem, Scope};
pub use line::{Line, Span};
pub use lookups::{active, in_area, mask_of, ospf_cost, subnet, up};
pub use network::{Named, Network, Notes, Router};
pub use ospf::{AreaLine, OspfProcess};
pub use policy::{
    Change, CommunityLine, CommunityList, MapEntry, Mention, NameLine, PrefixEntry, PrefixList,
    Prepend, RouteMap,
};
pub use refusal::{Fault, FormFault, Kind, ReadRefusal};
pub use topology::{Link, Unmatched};
