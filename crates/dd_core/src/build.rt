//! A node from a variable and two sons.

ghost use Rattle.std.specs.Prelude.{◌≡◌, ◌<◌, ◌≤◌, length, IfOk, ℕ};
ghost use Rattle.dd_core.specs.Store.{IsStore, IsAbove, Extends, IsChoiceBetween, IsNotBefore, IsEarlierVariable, AreSons, IsWithin};

use crate::table::{Node, Table};
use base_kit::NoMemory;

/// The diagram that takes `high` where the variable is true, and `low` elsewhere.
pub fn choice(
    table: &mut Table,
    variable: usize,
    high: usize,
    low: usize,
) -> Result<usize, NoMemory>
    requires store { IsStore table.old }
    requires high_inside { high < length table.old }
    requires low_inside { low < length table.old }
    requires high_above { IsAbove table.old variable high }
    requires low_above { IsAbove table.old variable low }
    ensures store { IsStore table.new }
    ensures extends { Extends table.old table.new }
    ensures within { (bound : ℕ) → variable ≤ bound → IsWithin table.old bound → IsWithin table.new bound }
    ensures choice { IfOk result (IsChoiceBetween table.old table.new variable high low) }
{
    if high == low {
        return Ok(high);
    }
    let place = table.intern(Node::Choice {
        variable,
        high,
        low,
    })?;
    Ok(place)
}

/// The earlier of this variable and that of the node.
pub fn first_variable(table: &Table, variable: usize, place: usize) -> usize
    requires inside { place < length table.now }
    ensures { IsEarlierVariable table.now variable place result }
{
    match table.node(place) {
        Node::Choice {
            variable: other,
            ..
        } if other < variable => other,
        _ => variable,
    }
}

/// The node's diagrams where the variable is true and where it is false. The variable is not after that
/// of the node.
pub fn sons(table: &Table, variable: usize, place: usize) -> (usize, usize)
    requires store { IsStore table.now }
    requires inside { place < length table.now }
    requires not_before { IsNotBefore table.now variable place }
    ensures { AreSons table.now variable place result.0 result.1 }
{
    match table.node(place) {
        Node::Choice {
            variable: other,
            high,
            low,
        } if other == variable => (high, low),
        _ => (place, place),
    }
}
