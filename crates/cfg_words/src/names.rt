//! The names of lists and route maps.

ghost use Rattle.std.specs.Prelude.{◌≡◌};
ghost use Rattle.std.specs.Str.{IsAscii};
ghost use Rattle.cfg_ast.specs.text.Answers.{Reads};
ghost use Rattle.cfg_ast.specs.text.FormSteps.{list_name_of, named_of};
ghost use Rattle.cfg_ast.specs.text.Words.{is_list_name};

use crate::words::copy_of;
use base_kit::Text;
use cfg_ast::{FormFault, Named};
use std::alloc::Global;

/// Whether the word may name a list or a route map: any word of 1 to 63 bytes.
#[tactic(auto, unfolding(cfg_ast::specs::text::Words::is_list_name))]
pub fn is_list_name(word: &[u8]) -> bool
    ensures { result ≡ is_list_name word.now }
{
    1 <= word.len() && word.len() <= 63
}

/// The name of a list or a route map. `BadForm` where the word is not 1 to 63 bytes long.
#[tactic(auto, unfolding(cfg_ast::specs::text::FormSteps::list_name_of))]
pub fn list_name(alloc: Global, word: &[u8]) -> Result<Text, FormFault>
    requires { IsAscii word.now }
    ensures { Reads result (list_name_of word.now) }
{
    if !is_list_name(word) {
        return Err(FormFault::BadForm);
    }
    Ok(copy_of(alloc, word)?)
}

/// The name of a list or a route map with the number of the line that gives it. `BadForm` where the
/// word is not 1 to 63 bytes long.
#[tactic(auto, unfolding(cfg_ast::specs::text::FormSteps::named_of))]
pub fn named(alloc: Global, word: &[u8], line: u32) -> Result<Named, FormFault>
    requires { IsAscii word.now }
    ensures { Reads result (named_of line word.now) }
{
    if !is_list_name(word) {
        return Err(FormFault::BadForm);
    }
    let name = copy_of(alloc, word)?;
    Ok(Named { name, line })
}
