//! Laws of certificates. The functions do nothing: their contracts are the laws.

ghost use Rattle.cut_certificate.specs.Laws.{ColorsAreAside, NotAdmissibleIsSo};
ghost use Rattle.cut_certificate.specs.LineFaults.{FirstLineDecides};

/// In graphs that differ only in the numbers of their colors, a text spells the same certificate, or has
/// the same fault.
pub fn colors_are_aside()
    ensures { ColorsAreAside }
{}

/// A text is refused as `NotAdmissible` only if it names all groups of the blocks behind its splits, and
/// these groups are no admissible partition.
pub fn not_admissible_is_so()
    ensures { NotAdmissibleIsSo }
{}

/// A text is refused with the fault of its first line that has one, or else because the line `end` is
/// missing. Each line is judged by the lines before it. A text without a fault spells the splits that its
/// lines say, and the groups of the blocks behind them.
pub fn first_line_decides()
    ensures { FirstLineDecides }
{}
