//! Laws of the initial routes of the network of the groups.
ghost use Rattle.emit_origin_laws.specs.Laws.{GroupsOriginate};

/// The initial routes of the network of the groups are those of the problem of the groups.
pub fn groups_originate()
    ensures { GroupsOriginate }
{
    emit_form_laws::laws::few_links();
}
