//! What printed lines share: texts as they are, a name or a number at the end of a line, the words of
//! an act, and the line of one `!`.

ghost use Rattle.std.specs.Prelude.{◌≡◌, ◌≤◌, ◌++◌, ◌∷◌, [], OnOk, string_bytes, length};
ghost use Rattle.std.specs.Fmt.{decimal};
ghost use Rattle.cfg_ast.specs.printing.Printed.{lines_text, closing, act_text};
ghost use Rattle.printed_words.specs.Spaced.{spaced};

use printed_words::{Piece, add_number};
use std::alloc::AllocError;

/// Appends a text as it is.
pub(crate) fn put(text: &mut String, bytes: &str) -> Result<(), AllocError>
    ensures { OnOk result (string_bytes text.new ≡ string_bytes text.old ++ bytes.now) }
{
    text.push_str(bytes)
}

/// Appends a name with what is before it and behind it.
pub(crate) fn put_around(
    text: &mut String,
    front: &str,
    name: &str,
    end: &str,
) -> Result<(), AllocError>
    ensures { OnOk result (string_bytes text.new ≡ string_bytes text.old ++ (front.now ++ name.now ++ end.now)) }
{
    text.push_str(front)?;
    text.push_str(name)?;
    text.push_str(end)
}

/// Appends a line that ends in a name. Few names are long, so most lines are appended by one call.
pub(crate) fn put_named_line(text: &mut String, front: &str, name: &str) -> Result<(), AllocError>
    requires { length front.now ≤ 24 }
    ensures { OnOk result (string_bytes text.new ≡ string_bytes text.old ++ (front.now ++ name.now ++ 10 ∷ [])) }
{
    if name.len() < 40 {
        let mut line = Piece::new();
        line.push_str(front);
        line.push_str(name);
        line.push_str("\n");
        return text.push_str(line.as_str());
    }
    put_around(text, front, name, "\n")
}

/// Appends a line that ends in a number.
pub(crate) fn put_numbered_line(
    text: &mut String,
    front: &str,
    number: u32,
) -> Result<(), AllocError>
    requires { length front.now ≤ 32 }
    ensures { OnOk result (string_bytes text.new ≡ string_bytes text.old ++ (front.now ++ decimal number ++ 10 ∷ [])) }
{
    let mut line = Piece::new();
    line.push_str(front);
    add_number(&mut line, number);
    line.push_str("\n");
    text.push_str(line.as_str())
}

/// Appends `permit` or `deny` behind a blank.
pub(crate) fn put_act(text: &mut String, permit: bool) -> Result<(), AllocError>
    ensures { OnOk result (string_bytes text.new ≡ string_bytes text.old ++ spaced (act_text permit)) }
{
    text.push_str(act_word(permit))
}

/// `permit` or `deny` behind a blank.
pub(crate) fn act_word(permit: bool) -> &'static str
    ensures text { result.now ≡ spaced (act_text permit) }
    ensures len { length result.now ≤ 7 }
{
    if permit { " permit" } else { " deny" }
}

/// Appends the line of one `!`.
pub(crate) fn put_closing(text: &mut String) -> Result<(), AllocError>
    ensures { OnOk result (string_bytes text.new ≡ string_bytes text.old ++ lines_text (closing ∷ [])) }
{
    text.push_str("!\n")
}
