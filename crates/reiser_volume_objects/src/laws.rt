// A law of the definitions, the contract of a function that does nothing.
ghost use Rattle.reiser_volume_objects.specs.Laws.{RefusalsBreakRules};

/// Where something is refused of the objects, not all the rules are kept: so each refusal has its cause.
pub fn refusals_break_rules()
    ensures { RefusalsBreakRules }
{}
