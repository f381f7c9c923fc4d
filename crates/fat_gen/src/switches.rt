//! The switches of a fat tree in order.

ghost use Rattle.std.specs.Prelude.{◌≡◌, ◌≤◌, ◌<◌, ◌++◌, IfOk, OnOk};
ghost use Rattle.fat_gen.specs.Switches.{core_switches, aggregation_switches, edge_switches, pod_switches, switches};

use crate::switch::Switch;
use std::alloc::{AllocError, Global};

fn push_cores(switches: &mut Vec<Switch>, half: u8) -> Result<(), AllocError>
    requires { half ≤ 10 }
    ensures { OnOk result (switches.new.items ≡ switches.old.items ++ core_switches half) }
{
    for number in 0..half * half {
        switches.push(Switch::Core(number))?;
    }
    Ok(())
}

fn push_aggregations(switches: &mut Vec<Switch>, half: u8, pod: u8) -> Result<(), AllocError>
    ensures { OnOk result (switches.new.items ≡ switches.old.items ++ aggregation_switches half pod) }
{
    for number in 0..half {
        switches.push(Switch::Aggregation { pod, number })?;
    }
    Ok(())
}

fn push_edges(switches: &mut Vec<Switch>, half: u8, pod: u8) -> Result<(), AllocError>
    ensures { OnOk result (switches.new.items ≡ switches.old.items ++ edge_switches half pod) }
{
    for number in 0..half {
        switches.push(Switch::Edge { pod, number })?;
    }
    Ok(())
}

fn push_pod(switches: &mut Vec<Switch>, half: u8, pod: u8) -> Result<(), AllocError>
    ensures { OnOk result (switches.new.items ≡ switches.old.items ++ pod_switches half pod) }
{
    push_aggregations(switches, half, pod)?;
    push_edges(switches, half, pod)
}

/// The switches of the fat tree of this half, in order.
pub(crate) fn switches(alloc: Global, half: u8) -> Result<Vec<Switch>, AllocError>
    requires { half ≤ 10 }
    ensures { IfOk result (λ all. all.items ≡ switches half) }
{
    let mut all = Vec::new(alloc);
    push_cores(&mut all, half)?;
    for pod in 0..2 * half {
        push_pod(&mut all, half, pod)?;
    }
    Ok(all)
}
