//! The cables of a fat tree.

ghost use Rattle.std.specs.Prelude.{◌≡◌, ◌≤◌, ◌<◌, ◌++◌, IfOk, OnOk};
ghost use Rattle.fat_gen.specs.Switches.{aggregation_place, edge_place};
ghost use Rattle.fat_gen.specs.Cables.{core_cables, edge_cables, switch_cables, pod_cables, cables};

use crate::cable::Cable;
use std::alloc::{AllocError, Global};

fn aggregation_place(half: u8, pod: u8, number: u8) -> u16
    requires small { half ≤ 10 }
    requires pod { pod < 20 }
    requires number { number < 10 }
    ensures { result ≡ aggregation_place half pod number }
{
    let half = u16::from(half);
    half * half + u16::from(pod) * (2 * half) + u16::from(number)
}

fn edge_place(half: u8, pod: u8, number: u8) -> u16
    requires small { half ≤ 10 }
    requires pod { pod < 20 }
    requires number { number < 10 }
    ensures { result ≡ edge_place half pod number }
{
    let half = u16::from(half);
    half * half + u16::from(pod) * (2 * half) + half + u16::from(number)
}

fn push_core_cables(
    cables: &mut Vec<Cable>,
    half: u8,
    pod: u8,
    number: u8,
) -> Result<(), AllocError>
    requires small { half ≤ 10 }
    requires pod { pod < 20 }
    requires number { number < 10 }
    ensures { OnOk result (cables.new.items ≡ cables.old.items ++ core_cables half pod number) }
{
    let even = aggregation_place(half, pod, number);
    let first = u16::from(number) * u16::from(half);
    for core in first..first + u16::from(half) {
        cables.push(Cable { even, odd: core })?;
    }
    Ok(())
}

fn push_edge_cables(
    cables: &mut Vec<Cable>,
    half: u8,
    pod: u8,
    number: u8,
) -> Result<(), AllocError>
    requires small { half ≤ 10 }
    requires pod { pod < 20 }
    requires number { number < 10 }
    ensures { OnOk result (cables.new.items ≡ cables.old.items ++ edge_cables half pod number) }
{
    let even = aggregation_place(half, pod, number);
    for edge in 0..half {
        let odd = edge_place(half, pod, edge);
        cables.push(Cable { even, odd })?;
    }
    Ok(())
}

fn push_switch_cables(
    cables: &mut Vec<Cable>,
    half: u8,
    pod: u8,
    number: u8,
) -> Result<(), AllocError>
    requires small { half ≤ 10 }
    requires pod { pod < 20 }
    requires number { number < 10 }
    ensures { OnOk result (cables.new.items ≡ cables.old.items ++ switch_cables half pod number) }
{
    push_core_cables(cables, half, pod, number)?;
    push_edge_cables(cables, half, pod, number)
}

fn push_pod_cables(cables: &mut Vec<Cable>, half: u8, pod: u8) -> Result<(), AllocError>
    requires small { half ≤ 10 }
    requires pod { pod < 20 }
    ensures { OnOk result (cables.new.items ≡ cables.old.items ++ pod_cables half pod) }
{
    for number in 0..half {
        push_switch_cables(cables, half, pod, number)?;
    }
    Ok(())
}

/// The cables of the fat tree of this half, in order.
pub(crate) fn cables(alloc: Global, half: u8) -> Result<Vec<Cable>, AllocError>
    requires { half ≤ 10 }
    ensures { IfOk result (λ all. all.items ≡ cables half) }
{
    let mut all = Vec::new(alloc);
    for pod in 0..2 * half {
        push_pod_cables(&mut all, half, pod)?;
    }
    Ok(all)
}
