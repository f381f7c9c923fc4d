//! What the edges of a router give it, without the paths that would be built.
//!
//! `offer_over` says what an edge gives its importer: what it imports, or a cost. With the label of the
//! exporter that is the route over the edge. `is_lengthened` compares the path of such a route in
//! pieces, and `grown` is its length. `lone_of_labels` has the lone routers on the paths of all labels,
//! by which keys are compared. `end_of` finds the edges of a router.
#![tactic(auto)]

mod lone;
mod offers;
mod own_edges;

pub use lone::{Lone, lone_of_labels};
pub use offers::{Offer, grown, is_lengthened, offer_over};
pub use own_edges::end_of;
