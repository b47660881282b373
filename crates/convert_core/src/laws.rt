// Laws of the definitions, each the contract of a function that does nothing.
ghost use Rattle.convert_core.specs.Laws.{SurveysAreOne};

/// A volume has one survey for a conversion with some options: what is counted and needed is decided by its blocks.
pub fn surveys_are_one()
    ensures { SurveysAreOne }
{}
