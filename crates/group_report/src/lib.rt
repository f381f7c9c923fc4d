//! The reports on the groups of a class.
//!
//! `report` writes how many routers and links there were and are, the groups and the neighbours that
//! are part of no session as lines of text, exactly as the definition `report_text` says, and `json`
//! writes the same as one line of JSON, as `json_text` says. `count_line` writes the line of the
//! counts alone, and `link_count` counts the links between groups for callers that do not need the links
//! themselves.
#![tactic(auto)]

mod counts;
mod facts;
mod groups;
mod json_line;
mod json_values;
mod link_counts;
mod reports;

pub use counts::{count_line, put_count_line};
pub use groups::group_lines;
pub use json_line::json;
pub use link_counts::link_count;
pub use reports::report;
