//! Laws of destination classes.

ghost use Rattle.cfg_ast.specs.meaning.Classes.{SameClassIsDecided, ClassOfEachMember, ClassAscends};

/// Law: two prefixes are in one class exactly if they have the same originators with the same initial
/// routes, and all lists answer both alike.
pub fn same_class_is_decided()
    ensures { SameClassIsDecided }
{}

/// Law: a class is that of each of its members.
pub fn class_of_each_member()
    ensures { ClassOfEachMember }
{}

/// Law: the prefixes of a class are different and ascend.
pub fn class_ascends()
    ensures { ClassAscends }
{}
