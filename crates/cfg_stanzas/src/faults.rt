//! The faults of a line that its place in a stanza decides.

ghost use Rattle.std.specs.Prelude.{◌≡◌};
ghost use Rattle.cfg_ast.specs.text.Stanzas.{once};
ghost use Rattle.cfg_ast.specs.declared.refusal.ReadRefusal.TheVariants.{At};
ghost use Rattle.cfg_ast.specs.declared.refusal.Kind.TheVariants.{Misplaced, Repeated};

use cfg_ast::{Kind, ReadRefusal};

/// The fault of a line whose value may stand once, if it is given already.
pub fn once(number: u32, is_given: bool) -> Result<(), ReadRefusal>
    ensures { result ≡ once number is_given tt }
{
    if is_given {
        return Err(repeated(number));
    }
    Ok(())
}

/// The fault of a line whose value stands already.
pub fn repeated(number: u32) -> ReadRefusal
    ensures { result ≡ At number Repeated }
{
    ReadRefusal::At {
        line: number,
        kind: Kind::Repeated,
    }
}

/// The fault of a line where it may not stand.
pub fn misplaced(number: u32) -> ReadRefusal
    ensures { result ≡ At number Misplaced }
{
    ReadRefusal::At {
        line: number,
        kind: Kind::Misplaced,
    }
}
