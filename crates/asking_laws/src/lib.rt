//! What holds of all stable solutions of a problem, and of those that are left where links are down.
//!
//! Where no router is lone a problem has one solution, up to the names on paths, and it keeps it where links are lost
//! that are spare: links over which no router forwards that has not a route of the same key elsewhere. Each law is the
//! contract of a function that does nothing: whoever needs one calls it.
#![tactic(auto)]

ghost use Rattle.asking_laws.specs.Spare.{NoTieHolds, NoneBecomesLone, SpareLinksBringNoTie, SpareLinksKeepKeys};
ghost use Rattle.asking_laws.specs.Unique.{OneExists, OneIsAll, OspfHasNoLone, SolutionsAreOne};

/// Where no router is lone any two stable labels have equal keys.
pub fn solutions_are_one()
    ensures { SolutionsAreOne }
{}

/// In OSPF no router is lone.
pub fn ospf_has_no_lone()
    ensures { OspfHasNoLone }
{}

/// Where no router is lone stable labels are a whole list of solutions.
pub fn one_is_all()
    ensures { OneIsAll }
{
    solutions_are_one();
}

/// Where no router is lone there are stable labels.
pub fn one_exists()
    ensures { OneExists }
{}

/// Without links that are spare the solution is what it was.
pub fn spare_links_keep_keys()
    ensures { SpareLinksKeepKeys }
{}

/// Where no router is lone none is without some links and routers.
pub fn none_becomes_lone()
    ensures { NoneBecomesLone }
{}

/// Where no router is lone and there is no tie the solution holds however ties are broken.
pub fn no_tie_holds()
    ensures { NoTieHolds }
{}

/// Where there is no tie there is none without links that are spare.
pub fn spare_links_bring_no_tie()
    ensures { SpareLinksBringNoTie }
{}
