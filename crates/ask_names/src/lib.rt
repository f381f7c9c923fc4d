//! What the words of a request stand for in a network: the classes that are asked, the routers and links that are
//! down, and the routers that a question names.
//!
//! `selected` gives the places of the classes. `routers_lost` and `links_lost` mark what is down, as `srp_without`
//! takes it. `marks_of` marks the routers that a question names, once for all classes, and `question` gives the
//! question about those of them that are not down.
#![tactic(auto)]

mod chosen;
mod lost;
mod named;
mod pairs;
mod selection;

pub use chosen::{marks_of, question};
pub use lost::{joins_names, links_lost, name_at, routers_lost};
pub use named::Named;
pub use pairs::NamePairs;
pub use selection::{Span, names_one, selected};
