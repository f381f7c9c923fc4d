//! What a network does not have of what a request names.

ghost use Rattle.std.specs.Prelude.{◌≡◌, IfOk, string_bytes};
ghost use Rattle.ask_requests.specs.Faults.{fault_kind, named_by, reason_of};

use base_kit::Text;
use std::alloc::{AllocError, Global};

/// What a network does not have of what a request names.
#[derive(Drop)]
pub enum Fault {
    /// No class has the number, prefix or address.
    NoClass,
    /// No router has the name.
    UnknownRouter(Text),
    /// No link joins the pair of routers.
    NoLink(Text),
}

impl Fault {
    /// The kind of the fault, as a word.
    pub fn kind(&self) -> &'static str
        ensures { result.now ≡ fault_kind self.now }
    {
        match self {
            Fault::NoClass => "NoClass",
            Fault::UnknownRouter(_) => "UnknownRouter",
            Fault::NoLink(_) => "NoLink",
        }
    }

    // What the network does not have. `word` is the one that was given for the classes.
    fn named<'a>(&'a self, word: &'a str) -> &'a str
        ensures { result.now ≡ named_by word.now self.now }
    {
        match self {
            Fault::NoClass => word,
            Fault::UnknownRouter(name) => name.as_str(),
            Fault::NoLink(pair) => pair.as_str(),
        }
    }

    /// The reason of a refusal: the kind, and what the network does not have. `word` is the one that was given for the
    /// classes.
    ///
    /// # Errors
    /// Out of memory.
    pub fn reason(&self, alloc: Global, word: &str) -> Result<String, AllocError>
        ensures { IfOk result (λ reason. string_bytes reason ≡ reason_of word.now self.now) }
    {
        let kind = self.kind();
        let named = self.named(word);
        let reason = format!(in alloc; "{kind} {named}")?;
        Ok(reason)
    }
}
