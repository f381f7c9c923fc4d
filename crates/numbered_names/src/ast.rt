//! The names of texts and of items that cfg_ast defines.

use crate::has_name::HasName;
use cfg_ast::{CommunityList, Interface, PrefixList, RouteMap, Router};

// The items of a network that are found by their names. The impls stand beside the trait, since the
// crates that need them have neither the trait nor the types.

impl HasName for Router {
    ghost name = { λ router. router.name };

    fn name(&self) -> &str {
        self.name.as_str()
    }
}

impl HasName for Interface {
    ghost name = { λ interface. interface.name };

    fn name(&self) -> &str {
        self.name.as_str()
    }
}

impl HasName for PrefixList {
    ghost name = { λ list. list.name };

    fn name(&self) -> &str {
        self.name.as_str()
    }
}

impl HasName for CommunityList {
    ghost name = { λ list. list.name };

    fn name(&self) -> &str {
        self.name.as_str()
    }
}

impl HasName for RouteMap {
    ghost name = { λ map. map.name };

    fn name(&self) -> &str {
        self.name.as_str()
    }
}
