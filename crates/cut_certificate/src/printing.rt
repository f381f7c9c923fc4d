//! The text of a certificate.

ghost use Rattle.std.specs.Prelude.{◌≡◌, ◌<◌, ◌++◌, All, IfOk, OnOk, length, map, string_bytes};
ghost use Rattle.cfg_ast.specs.printing.Printed.{line_text, lines_text};
ghost use Rattle.cut_certificate.specs.Certificates.{IsAccepted};
ghost use Rattle.cut_certificate.specs.Printed.{certificate_text, named_group_line, split_line};

use crate::certificate::{Certificate, Split};
use base_kit::{ActGraph, List, NoMemory, Text};
use std::alloc::{AllocError, Global};
use std::fmt::Write;

fn put_split(
    text: &mut String,
    graph: &ActGraph,
    names: &[Text],
    split: Split,
) -> Result<(), AllocError>
    requires names { length names.now ≡ graph.now.count }
    requires place { split.edge < length graph.now.edges }
    ensures { OnOk result (string_bytes text.new ≡ string_bytes text.old ++ line_text (split_line graph.now.edges names.now split)) }
{
    let edge = graph.edges.as_slice()[split.edge as usize];
    let name = names[edge.importer as usize].as_str();
    let block = split.block;
    let by = split.by;
    let link = edge.link;
    write!(text, "split {block} {by} {name} {link}\n")
}

fn put_splits(
    text: &mut String,
    graph: &ActGraph,
    names: &[Text],
    splits: &[Split],
) -> Result<(), AllocError>
    requires names { length names.now ≡ graph.now.count }
    requires places { All (λ s. s.edge < length graph.now.edges) splits.now }
    ensures { OnOk result (string_bytes text.new ≡ string_bytes text.old ++ lines_text (map (split_line graph.now.edges names.now) splits.now)) }
{
    for split in splits {
        put_split(text, graph, names, *split)?;
    }
    Ok(())
}

fn put_group(text: &mut String, names: &[Text], members: &[u32]) -> Result<(), AllocError>
    requires { All (λ router. router < length names.now) members.now }
    ensures { OnOk result (string_bytes text.new ≡ string_bytes text.old ++ line_text (named_group_line names.now members.now)) }
{
    text.push_str("group")?;
    for router in members {
        text.push_str(" ")?;
        text.push_str(names[*router as usize].as_str())?;
    }
    text.push_str("\n")?;
    Ok(())
}

fn put_groups(text: &mut String, names: &[Text], groups: &[List<u32>]) -> Result<(), AllocError>
    requires { All (All (λ router. router < length names.now)) groups.now }
    ensures { OnOk result (string_bytes text.new ≡ string_bytes text.old ++ lines_text (map (named_group_line names.now) groups.now)) }
{
    for group in groups {
        put_group(text, names, group.as_slice())?;
    }
    Ok(())
}

/// The text of a certificate of the graph that is accepted, for routers of these names.
pub fn print_certificate(
    alloc: Global,
    graph: &ActGraph,
    names: &List<Text>,
    c: &Certificate,
) -> Result<Vec<u8>, NoMemory>
    requires names { length names.now ≡ graph.now.count }
    requires accepted { IsAccepted graph.now c.now }
    ensures { IfOk result (λ bytes. bytes.items ≡ certificate_text graph.now.edges names.now c.now) }
{
    let mut text = String::new(alloc);
    text.push_str("bonsai certificate 1\n")?;
    put_splits(&mut text, graph, names.as_slice(), c.splits.as_slice())?;
    put_groups(&mut text, names.as_slice(), c.groups.as_slice())?;
    text.push_str("end\n")?;
    Ok(text.into_bytes())
}
