//! The command `classes`.

ghost use Rattle.std.specs.Prelude.{◌≡◌, ◌++◌, IfOk, OnOk, flat_map, string_bytes};
ghost use Rattle.std.specs.List.{enumerate_from};
ghost use Rattle.answer_groups.specs.ClassLines.{router_name_at, prefix_word, origin_word, class_line, class_lines, classes_text};
ghost use Rattle.answer_kit.specs.Outcome.{done};
ghost use Rattle.answer_kit.specs.Replies.{Answers, Only};

use answer_kit::Reply;
use base_kit::Prefix;
use cfg_ast::{DestClass, Network, Origin};
use cfg_check::Checked;
use dest_classes::classes;
use printed_words::put_prefix;
use std::alloc::{AllocError, Global};
use std::fmt::Write;

fn name_at(network: &Network, place: u32) -> &str
    ensures { result.now ≡ router_name_at network.now place }
{
    match network.routers.as_slice().get(place as usize) {
        Some(router) => router.name.as_str(),
        None => "",
    }
}

fn put_prefix_word(text: &mut String, prefix: &Prefix) -> Result<(), AllocError>
    ensures { OnOk result (string_bytes text.new ≡ string_bytes text.old ++ prefix_word prefix.now) }
{
    text.push_str(" ")?;
    put_prefix(text, prefix)
}

fn put_origin(text: &mut String, network: &Network, origin: &Origin) -> Result<(), AllocError>
    ensures { OnOk result (string_bytes text.new ≡ string_bytes text.old ++ origin_word network.now origin.now) }
{
    let name = name_at(network, origin.router);
    match origin.cost {
        Some(cost) => write!(text, " {name}:{cost}"),
        None => write!(text, " {name}"),
    }
}

fn put_prefixes(text: &mut String, prefixes: &[Prefix]) -> Result<(), AllocError>
    ensures { OnOk result (string_bytes text.new ≡ string_bytes text.old ++ flat_map prefix_word prefixes.now) }
{
    for prefix in prefixes {
        put_prefix_word(text, prefix)?;
    }
    Ok(())
}

fn put_origins(text: &mut String, network: &Network, origins: &[Origin]) -> Result<(), AllocError>
    ensures { OnOk result (string_bytes text.new ≡ string_bytes text.old ++ flat_map (origin_word network.now) origins.now) }
{
    for origin in origins {
        put_origin(text, network, origin)?;
    }
    Ok(())
}

fn put_class(
    text: &mut String,
    network: &Network,
    number: usize,
    class: &DestClass,
) -> Result<(), AllocError>
    ensures { OnOk result (string_bytes text.new ≡ string_bytes text.old ++ class_line network.now (number, class.now)) }
{
    write!(text, "class {number} prefixes")?;
    put_prefixes(text, class.prefixes.as_slice())?;
    text.push_str(" origins")?;
    put_origins(text, network, class.origins.as_slice())?;
    text.push_str("\n")
}

fn class_lines(
    alloc: Global,
    network: &Network,
    classes: &[DestClass],
) -> Result<Vec<u8>, AllocError>
    ensures { IfOk result (λ bytes. bytes.items ≡ class_lines network.now classes.now) }
{
    let mut text = String::new(alloc);
    for i in 0..classes.len() {
        put_class(&mut text, network, i + 1, &classes[i])?;
    }
    Ok(text.into_bytes())
}

/// The line of each class.
pub fn answer(alloc: Global, checked: &Checked) -> Reply
    ensures { Answers result (Only (done (classes_text checked.now.network))) ⊥ ⊥ }
{
    let Ok(classes) = classes(alloc, checked) else {
        return Reply::NoMemory;
    };
    match class_lines(alloc, checked.network(), classes.as_slice()) {
        Ok(bytes) => Reply::Output(bytes),
        Err(_) => Reply::NoMemory,
    }
}
