//! The text of labels.

ghost use Rattle.std.specs.Prelude.{◌≡◌, ◌<◌, ◌≤◌, ◌==◌, ◌++◌, ◌∷◌, [], IfOk, OnOk, Some, length, not, string_bytes, decimal, map};
ghost use Rattle.std.specs.List.{position_or_len};
ghost use Rattle.cfg_ast.specs.printing.Printed.{community_text, line_text};
ghost use Rattle.srp_core.specs.declared.route.Route.TheVariants.{Bgp};
ghost use Rattle.printed_words.specs.Spaced.{spaced, spaced_words};
ghost use Rattle.solution_text.specs.Printed.{piece_word, run_words, path_words, label_words, label_line, labels_text};

use base_kit::{List, NoMemory, NumSet, Text};
use printed_words::put_communities;
use shared_routes::{SharedLabels, SharedRoute};
use srp_core::{Labels, Route};
use std::alloc::{AllocError, Global};
use std::fmt::Write;

// ---- paths

// A number so many times, as one word behind a blank.
fn put_piece(text: &mut String, number: u32, count: usize) -> Result<(), AllocError>
    ensures { OnOk result (string_bytes text.new ≡ string_bytes text.old ++ spaced (piece_word number count)) }
{
    if count <= 1 {
        write!(text, " {number}")
    } else {
        write!(text, " {number}*{count}")
    }
}

// Pieces of 11 of a run, and the rest.
fn put_run(text: &mut String, number: u32, count: usize) -> Result<(), AllocError>
    ensures { OnOk result (string_bytes text.new ≡ string_bytes text.old ++ spaced_words (run_words (number, count))) }
{
    for _i in 0..count / 11 {
        put_piece(text, number, 11)?;
    }
    let rest = count % 11;
    if rest == 0 {
        return Ok(());
    }
    put_piece(text, number, rest)
}

// How often the number stands at the front.
fn run_length(path: &[u32], number: u32) -> usize
    ensures value { result ≡ position_or_len (λ other. not (other == number)) path.now }
    ensures bound { result ≤ length path.now }
{
    for (i, other) in path.iter().enumerate() {
        if *other != number {
            return i;
        }
    }
    path.len()
}

fn put_path(text: &mut String, path: &[u32]) -> Result<(), AllocError>
    ensures { OnOk result (string_bytes text.new ≡ string_bytes text.old ++ spaced_words (path_words path.now)) }
{
    let mut from = 0;
    while from < path.len() {
        let number = path[from];
        let count = run_length(&path[from..], number);
        put_run(text, number, count)?;
        from += count;
    }
    Ok(())
}

// ---- lines

fn put_bgp(text: &mut String, lp: u32, path: &[u32], comms: &NumSet) -> Result<(), AllocError>
    ensures { OnOk result (string_bytes text.new ≡ string_bytes text.old ++ spaced_words (label_words (Some (Bgp lp path.now comms.now)))) }
{
    write!(text, " bgp {lp} path")?;
    put_path(text, path)?;
    text.push_str(" comms")?;
    put_communities(text, comms)
}

// The words of a label, each behind a blank.
fn put_label(text: &mut String, label: &Option<Route>) -> Result<(), AllocError>
    ensures { OnOk result (string_bytes text.new ≡ string_bytes text.old ++ spaced_words (label_words label.now)) }
{
    match label {
        None => text.push_str(" none"),
        Some(Route::Ospf { cost }) => write!(text, " cost {cost}"),
        Some(Route::Bgp { lp, path, comms }) => put_bgp(text, *lp, path.as_slice(), comms),
    }
}

fn put_line(text: &mut String, name: &Text, label: &Option<Route>) -> Result<(), AllocError>
    ensures { OnOk result (string_bytes text.new ≡ string_bytes text.old ++ line_text (label_line (name.now, label.now))) }
{
    text.push_str(name.as_str())?;
    put_label(text, label)?;
    text.push_str("\n")?;
    Ok(())
}

fn put_lines(text: &mut String, names: &[Text], labels: &[Option<Route>]) -> Result<(), AllocError>
    requires { length labels.now ≡ length names.now }
    ensures { OnOk result (string_bytes text.new ≡ string_bytes text.old ++ labels_text names.now labels.now) }
{
    for i in 0..names.len() {
        put_line(text, &names[i], &labels[i])?;
    }
    Ok(())
}

/// The text of labels, one for each name: a line for each router, in order. Communities are written as
/// two halves, and each longest run of one number on a path in pieces of at most 11.
pub fn print_labels(alloc: Global, labels: &Labels, names: &List<Text>) -> Result<Vec<u8>, NoMemory>
    requires { length labels.now ≡ length names.now }
    ensures { IfOk result (λ bytes. bytes.items ≡ labels_text names.now labels.now) }
{
    let mut text = String::new(alloc);
    put_lines(&mut text, names.as_slice(), labels.as_slice())?;
    Ok(text.into_bytes())
}

// ---- labels whose paths share their tails

fn plain_label(alloc: Global, label: &Option<SharedRoute>) -> Result<Option<Route>, NoMemory>
    ensures { IfOk result (λ plain. plain ≡ label.now) }
{
    match label {
        None => Ok(None),
        Some(route) => Ok(Some(route.plain(alloc)?)),
    }
}

fn put_shared_line(
    alloc: Global,
    text: &mut String,
    name: &Text,
    label: &Option<SharedRoute>,
) -> Result<(), NoMemory>
    ensures { OnOk result (string_bytes text.new ≡ string_bytes text.old ++ line_text (label_line (name.now, label.now))) }
{
    let plain = plain_label(alloc, label)?;
    put_line(text, name, &plain)?;
    Ok(())
}

fn put_shared_lines(
    alloc: Global,
    text: &mut String,
    names: &[Text],
    labels: &[Option<SharedRoute>],
) -> Result<(), NoMemory>
    requires { length labels.now ≡ length names.now }
    ensures { OnOk result (string_bytes text.new ≡ string_bytes text.old ++ labels_text names.now labels.now) }
{
    for i in 0..names.len() {
        put_shared_line(alloc, text, &names[i], &labels[i])?;
    }
    Ok(())
}

/// The text with that of labels behind it, as `print_labels` writes it. Of the paths, which share their
/// tails, only one at a time is copied. If memory runs out, the text is dropped.
pub fn text_with_labels(
    alloc: Global,
    text: String,
    labels: &SharedLabels,
    names: &List<Text>,
) -> Result<String, NoMemory>
    requires { length labels.now ≡ length names.now }
    ensures { IfOk result (λ longer. string_bytes longer ≡ string_bytes text ++ labels_text names.now labels.now) }
{
    let mut longer = text;
    put_shared_lines(alloc, &mut longer, names.as_slice(), labels.as_slice())?;
    Ok(longer)
}
