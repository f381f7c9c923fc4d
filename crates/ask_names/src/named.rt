//! The routers that a question names.

ghost use Rattle.std.specs.Prelude.{◌≤◌, length};

/// The routers that a question names, as marks: those of which something is asked, and those of the way.
#[derive(Drop)]
pub struct Named {
    pub of: Vec<bool>,
    pub way: Vec<bool>,
    ghost few: { length of.items ≤ 4096 },
    ghost few_on_way: { length way.items ≤ 4096 },
}
