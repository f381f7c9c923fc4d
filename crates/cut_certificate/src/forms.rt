//! What the words of a line say.

ghost use Rattle.std.specs.Prelude.{◌≡◌, MatchOption, Some, None};
ghost use Rattle.std.specs.Option.{is_some};
ghost use Rattle.std.specs.List.{list_all};
ghost use Rattle.cfg_ast.specs.text.Lines.{words_of};
ghost use Rattle.cfg_ast.specs.text.Words.{is_router_name};
ghost use Rattle.cut_certificate.specs.Forms.{closing_form, group_form, head_form, split_form};
ghost use Rattle.cut_certificate.specs.Forms.CertificateLine.{Divide};

use base_kit::read_number;
use cfg_lex::next_word;
use cfg_words::is_router_name;

/// Whether the words are `certificate 1`.
pub(crate) fn is_head(line: &[u8]) -> bool
    ensures { result ≡ is_some (head_form (words_of line.now)) }
{
    let Some((what, rest)) = next_word(line) else {
        return false;
    };
    let Some((version, rest)) = next_word(rest) else {
        return false;
    };
    if next_word(rest).is_some() {
        return false;
    }
    what == b"certificate".as_slice() && version == b"1".as_slice()
}

/// The two blocks, the name and the link of a split.
pub(crate) fn split_form(line: &[u8]) -> Option<(u32, u32, &[u8], u32)>
    ensures { MatchOption result (split_form (words_of line.now) ≡ None) (λ s. split_form (words_of line.now) ≡ Some (Divide s.0 s.1 s.2.now s.3)) }
{
    let (block, rest) = next_word(line)?;
    let (by, rest) = next_word(rest)?;
    let (name, rest) = next_word(rest)?;
    let (link, rest) = next_word(rest)?;
    if next_word(rest).is_some() || !is_router_name(name) {
        return None;
    }
    let block = read_number(block)?;
    let by = read_number(by)?;
    let link = read_number(link)?;
    Some((block, by, name, link))
}

fn are_names(line: &[u8]) -> bool
    ensures { result ≡ list_all is_router_name (words_of line.now) }
{
    let mut rest = line;
    while let Some((word, more)) = next_word(rest) {
        if !is_router_name(word) {
            return false;
        }
        rest = more;
    }
    true
}

/// Whether the words are names, and there is at least one.
pub(crate) fn is_group(line: &[u8]) -> bool
    ensures { result ≡ is_some (group_form (words_of line.now)) }
{
    next_word(line).is_some() && are_names(line)
}

/// Whether there is no word.
pub(crate) fn is_end(line: &[u8]) -> bool
    ensures { result ≡ is_some (closing_form (words_of line.now)) }
{
    next_word(line).is_none()
}
