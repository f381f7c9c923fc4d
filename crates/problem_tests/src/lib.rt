//! Tests of problems, their groups and their solutions: refinement, links of groups, labels, routes,
//! schedules, reports, fat trees. It has no code of its own.
#![tactic(auto)]

#[cfg(test)]
mod counts;
#[cfg(test)]
mod fat_trees;
#[cfg(test)]
mod groups;
#[cfg(test)]
mod labels;
#[cfg(test)]
mod links;
#[cfg(test)]
mod routes;
#[cfg(test)]
mod schedules;
#[cfg(test)]
mod solutions;
