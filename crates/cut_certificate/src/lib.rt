//! Certificates of coarseness: lists of splits that lead from the blocks of equal color to the coarsest
//! admissible partition of a graph, so that a reader needs to trust no refinement.
//!
//! `verify` reads the text of a certificate exactly by the definition `certificate_of_text`: the
//! certificate, or the first line at fault with its kind. A certificate that it accepts names the
//! coarsest admissible partition. `certify` makes a certificate that is accepted, and
//! `print_certificate` writes it as a text.
#![tactic(auto)]

mod blocks;
mod certificate;
mod certifying;
mod course;
mod forms;
mod groups;
mod incoming;
pub mod laws;
mod lines;
mod mirrors;
mod moving;
mod numbering;
mod outgoing;
mod printing;
mod reading;
mod refusal;
mod standing;
mod turns;

pub use certificate::{Certificate, Split};
pub use certifying::certify;
pub use printing::print_certificate;
pub use reading::verify;
pub use refusal::{CutKind, CutRefusal};
pub use standing::Stage;
