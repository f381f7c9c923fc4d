//! The switches of a fat tree.

/// A switch of a fat tree. Pods, and the switches of a kind in a pod, are numbered from 0.
#[derive(Clone, Copy)]
pub enum Switch {
    Core(u8),
    Aggregation { pod: u8, number: u8 },
    Edge { pod: u8, number: u8 },
}
