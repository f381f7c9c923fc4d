//! What routers without a label may still get.
//!
//! `outlook_of` gives for each router the communities and the least sizes of routes that it may hold in
//! stable labels that the case admits. By these `nothing_comes` finds that a router gets nothing better
//! than its best offer.

mod foreseen;
mod growing;
mod images;
mod outlook;

pub(crate) use outlook::{Outlook, nothing_comes, outlook_of};
