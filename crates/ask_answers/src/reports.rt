//! What a request writes of all classes that it asks.

ghost use Rattle.std.specs.Prelude.{◌≡◌, ◌<◌, ◌&&◌, IfOk, Some, length, slice_index_or};
ghost use Rattle.cfg_ast.specs.meaning.Classes.{classes_of};
ghost use Rattle.ask_names.specs.Selection.{selected};
ghost use Rattle.solution_answers.specs.Writing.{Writes};
ghost use Rattle.ask_answers.specs.Atlases.{IsAtlasOf};
ghost use Rattle.ask_answers.specs.Reports.{IsReport};

use crate::atlas::Atlas;
use crate::class_parts::put_class_part;
use crate::plan::plan_for;
use crate::problems::known_after;
use ask_names::Span;
use ask_words::Request;
use base_kit::NoMemory;
use cfg_ast::DestClass;
use cfg_check::Checked;
use std::alloc::Global;

/// Whether both hold.
pub(crate) fn both(first: bool, second: bool) -> bool
    ensures { result ≡ (first && second) }
{
    first && second
}

fn class_at(classes: &[DestClass], place: usize) -> &DestClass
    requires { place < length classes.now }
    ensures { result.now ≡ slice_index_or classes.now place result.now }
{
    &classes[place]
}

/// Appends what a request writes of the classes that it asks. Whether every answer is `yes`. `shows` says whether
/// labels stand behind a `no`.
///
/// # Errors
/// Out of memory.
pub(crate) fn put_report(
    alloc: Global,
    bytes: &mut Vec<u8>,
    checked: &Checked,
    atlas: &mut Atlas,
    request: &Request,
    span: Span,
    shows: bool,
) -> Result<bool, NoMemory>
    requires atlas { IsAtlasOf checked.now.network atlas.old }
    requires span { selected request.now.classes (classes_of checked.now.network) ≡ Some span }
    ensures atlas { IsAtlasOf checked.now.network atlas.new }
    ensures report { IfOk result (Writes (IsReport shows checked.now.network request.now) bytes.old.items bytes.new.items) }
{
    let links = atlas.shared.links.as_slice();
    let plan = plan_for(alloc, checked.network(), links, request, shows)?;
    let mut all = true;
    let mut last = None;
    for place in span.from..span.upto {
        let classes = atlas.classes.as_slice();
        let class = class_at(classes, place);
        let known = known_after(alloc, checked, &mut atlas.shared, class, last)?;
        let number = place + 1;
        let shared = &atlas.shared;
        let yes = put_class_part(
            alloc, bytes, checked, shared, request, &plan, number, &known,
        )?;
        all = both(all, yes);
        last = Some(known.whole);
    }
    Ok(all)
}
