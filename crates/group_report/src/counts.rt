//! The line of the counts of a class.

ghost use Rattle.std.specs.Prelude.{◌≡◌, ◌++◌, IfOk, OnOk, OnErr, string_bytes};
ghost use Rattle.group_report.specs.Reports.{class_words, network_words, group_words, count_line};
ghost use Rattle.printed_words.specs.Grown.{HasGrown};

use base_kit::NoMemory;
use printed_words::put_digits;
use std::alloc::{AllocError, Global};

fn put_class_words(text: &mut String, class_number: usize) -> Result<(), AllocError>
    ensures ok { OnOk result (string_bytes text.new ≡ string_bytes text.old ++ class_words class_number) }
    ensures err { OnErr result (HasGrown (string_bytes text.old) (string_bytes text.new)) }
{
    text.push_str("class ")?;
    put_digits(text, class_number as u64)?;
    text.push_str(": ")
}

fn put_network_words(text: &mut String, routers: u32, links: u32) -> Result<(), AllocError>
    ensures ok { OnOk result (string_bytes text.new ≡ string_bytes text.old ++ network_words routers links) }
    ensures err { OnErr result (HasGrown (string_bytes text.old) (string_bytes text.new)) }
{
    put_digits(text, u64::from(routers))?;
    text.push_str(" routers ")?;
    put_digits(text, u64::from(links))?;
    text.push_str(" links ")
}

fn put_group_words(text: &mut String, groups: u32, links: usize) -> Result<(), AllocError>
    ensures ok { OnOk result (string_bytes text.new ≡ string_bytes text.old ++ group_words groups links) }
    ensures err { OnErr result (HasGrown (string_bytes text.old) (string_bytes text.new)) }
{
    put_digits(text, u64::from(groups))?;
    text.push_str(" groups ")?;
    put_digits(text, links as u64)?;
    text.push_str(" links\n")
}

/// Appends the line of the counts of a class, which `count_line` gives.
pub fn put_count_line(
    text: &mut String,
    class_number: usize,
    routers: u32,
    links_before: u32,
    groups: u32,
    links_after: usize,
) -> Result<(), AllocError>
    ensures ok { OnOk result (string_bytes text.new ≡ string_bytes text.old ++ count_line class_number routers links_before groups links_after) }
    ensures err { OnErr result (HasGrown (string_bytes text.old) (string_bytes text.new)) }
{
    put_class_words(text, class_number)?;
    put_network_words(text, routers, links_before)?;
    put_group_words(text, groups, links_after)
}

/// The line of the counts of a class: how many routers and links the network has, how many groups
/// there are, and how many links between them.
///
/// # Errors
/// Out of memory.
pub fn count_line(
    alloc: Global,
    class_number: u32,
    routers: u32,
    links_before: u32,
    groups: u32,
    links_after: u32,
) -> Result<Vec<u8>, NoMemory>
    ensures { IfOk result (λ bytes. bytes.items ≡ count_line class_number routers links_before groups links_after) }
{
    let mut text = String::new(alloc);
    put_count_line(
        &mut text,
        class_number as usize,
        routers,
        links_before,
        groups,
        links_after as usize,
    )?;
    Ok(text.into_bytes())
}
