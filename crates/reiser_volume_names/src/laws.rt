// Laws of the definitions, each the contract of a function that does nothing.
ghost use Rattle.reiser_volume_names.specs.Laws.{LinksAreOne, NamesRefusalsBreakRules};

/// There is one list of the entries of named directories, and one of links.
pub fn links_are_one()
    ensures { LinksAreOne }
{}

/// Where something is refused of the names, not all their rules are kept: so each refusal has its cause.
pub fn names_refusals_break_rules()
    ensures { NamesRefusalsBreakRules }
{}
