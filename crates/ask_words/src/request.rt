//! What is asked, with names as texts.

use base_kit::{List, Prefix, Text};

/// Which classes are asked.
#[derive(Clone, Copy)]
pub enum Classes {
    /// All classes.
    All,
    /// The class of this number.
    Number(u32),
    /// The classes from one number to another.
    Range(u32, u32),
    /// The class that has this prefix.
    Having(Prefix),
    /// The class that has the longest prefix with this address.
    Holding(u32),
}

/// Routers, by their names.
#[derive(Drop)]
pub enum Routers {
    /// All routers.
    Every,
    /// These routers, each named once.
    Named(List<Text>),
}

/// What is asked of labels.
#[derive(Drop)]
pub enum AskedOf {
    /// Each of the routers has a label.
    Route(Routers),
    /// None of them has one.
    Isolated(Routers),
    /// No chain of forwarding from one of them has more hops.
    Hops(u32, Routers),
    /// Each chain from one of the second routers to an originator has one of the first.
    Through(Routers, Routers),
    /// No chain from one of the second routers has one of the first.
    Avoids(Routers, Routers),
    /// Each of their labels holds the community.
    Carries(u32, Routers),
    /// None of their labels holds it.
    Lacks(u32, Routers),
}

/// What is down: a router, or all links between two routers.
#[derive(Drop)]
pub enum Lost {
    Router(Text),
    Links(Text, Text),
}

/// What is to be done for each class.
#[derive(Drop)]
pub enum Task {
    /// Count the solutions.
    Count,
    /// Print them.
    Solutions,
    /// Print whom each router forwards to in each of them.
    Forwards,
    /// Answer a question.
    Answer(AskedOf),
    /// Answer it also without each one link more.
    FailingLinks(AskedOf),
    /// Answer it also without each one router more.
    FailingRouters(AskedOf),
}

/// A task for some classes, where some routers and links are down.
#[derive(Drop)]
pub struct Request {
    pub classes: Classes,
    pub down: List<Lost>,
    pub task: Task,
}

/// What the words of a call ask.
#[derive(Drop)]
pub enum Command {
    One(Request),
    /// What the lines of the second file ask.
    Questions,
}
