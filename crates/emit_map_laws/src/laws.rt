//! Laws of the sessions of the network of the groups.
ghost use Rattle.emit_map_laws.specs.Laws.{SessionsImportActs};

/// A session of the network of the groups imports, at an end of its link, what the act imports that the
/// link carries into that end. If the link carries no act there, the session imports nothing.
pub fn sessions_import_acts()
    ensures { SessionsImportActs }
{
    abstract_net::laws::quotient_carries();
    emit_form_laws::laws::few_links();
    emit_form_laws::laws::emitted_can_be_printed();
    specialize::laws::session_imports();
}
