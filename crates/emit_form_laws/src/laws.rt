//! What holds of the network of the groups of every plan.
ghost use Rattle.config_emit.specs.Laws.{EmittedCanBePrinted};
ghost use Rattle.emit_form_laws.specs.Laws.{GroupsAreNoMore, GroupsHaveFewLinks, GroupsHaveNoMoreLinks};

/// A plan has no more groups than the network read has routers.
pub fn no_more_groups()
    ensures { GroupsAreNoMore }
{}

/// Between the groups of a plan there are no more links than in the network read.
pub fn no_more_links()
    ensures { GroupsHaveNoMoreLinks }
{
    abstract_net::laws::no_more_links();
}

/// Between the groups of a plan there are at most 1,048,576 links.
pub fn few_links()
    ensures { GroupsHaveFewLinks }
{
    no_more_links();
    net_topology::laws::few_links();
}

/// The network of the groups is as the grammar has networks, its notes are notes, and its printed lines
/// have at most 1,024 bytes.
pub fn emitted_can_be_printed()
    ensures { EmittedCanBePrinted }
{
    few_links();
    abstract_net::laws::quotient_carries();
    cfg_round_trip::short_names_give_short_lines();
}
