//! Whom each router forwards to, as text.

ghost use Rattle.std.specs.Prelude.{◌≡◌, ◌++◌, IfOk, OnOk, map, string_bytes};
ghost use Rattle.srp_core.specs.Stability.{AreLabels};
ghost use Rattle.solution_answers.specs.Forwarding.{hops_words, next_words};
ghost use Rattle.solution_answers.specs.RouterNames.{name_at};
ghost use Rattle.printed_words.specs.Spaced.{spaced_words};
ghost use Rattle.solution_answers.specs.Solutions.{IsHopsText};

use answer_kit::router_name;
use base_kit::{NoMemory, NumSet};
use printed_words::put_word;
use shared_routes::{SharedLabels, SharedRoute};
use srp_core::Srp;
use srp_questions::next_hops;
use std::alloc::{AllocError, Global};

// Appends the names of routers, each behind a blank.
fn put_names(text: &mut String, srp: &Srp, routers: &[u32]) -> Result<(), AllocError>
    ensures { OnOk result (string_bytes text.new ≡ string_bytes text.old ++ spaced_words (map (name_at srp.now.names) routers.now)) }
{
    for router in routers {
        put_word(text, router_name(srp, *router))?;
    }
    Ok(())
}

// Appends to whom a router with a label forwards, or that it forwards to nobody.
fn put_next(text: &mut String, srp: &Srp, hops: &[u32]) -> Result<(), AllocError>
    ensures { OnOk result (string_bytes text.new ≡ string_bytes text.old ++ next_words srp.now.names hops.now) }
{
    match hops {
        [] => text.push_str(" here"),
        routers => {
            text.push_str(" to")?;
            put_names(text, srp, routers)
        }
    }
}

// Appends what is reported of a router: that it has no label, or to whom it forwards.
fn put_hops(
    text: &mut String,
    srp: &Srp,
    label: &Option<SharedRoute>,
    hops: &NumSet,
) -> Result<(), AllocError>
    ensures { OnOk result (string_bytes text.new ≡ string_bytes text.old ++ hops_words srp.now.names label.now hops.now) }
{
    match label {
        None => text.push_str(" none"),
        Some(_) => put_next(text, srp, hops.as_slice()),
    }
}

/// A line for each router: whom it forwards to under these labels.
///
/// # Errors
/// Out of memory.
pub(crate) fn hops_text(alloc: Global, srp: &Srp, labels: &SharedLabels) -> Result<String, NoMemory>
    requires { AreLabels srp.now labels.now }
    ensures { IfOk result (λ text. IsHopsText srp.now labels.now (string_bytes text)) }
{
    let _known = srp.count();
    let hops = next_hops(alloc, srp, labels)?;
    let hops = hops.as_slice();
    let labels = labels.as_slice();
    let mut text = String::new(alloc);
    for router in 0..hops.len() {
        text.push_str(router_name(srp, router as u32))?;
        put_hops(&mut text, srp, &labels[router], &hops[router])?;
        text.push_str("\n")?;
    }
    Ok(text)
}
