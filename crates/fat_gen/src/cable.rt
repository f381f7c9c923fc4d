//! Cables between switches, and their ends.

/// A cable between two switches, which go by place. The first has the even address of its subnet.
#[derive(Clone, Copy)]
pub struct Cable {
    pub even: u16,
    pub odd: u16,
}

/// An end of a cable: its own address, that of the other end, and the place of the switch there.
#[derive(Clone, Copy)]
pub struct Port {
    pub own: u32,
    pub peer: u32,
    pub other: u16,
}
