// Laws of the definitions, each the contract of a function that does nothing.
ghost use Rattle.unit_plan.specs.Laws.{PlansAreSound};
ghost use Rattle.unit_plan.specs.Places.{PlacesServe};
ghost use Rattle.unit_plan.specs.Chunks.{ChunksAreFew, PlansFit, RolesAreUses};

/// A plan has as many units as are needed. Each list ascends, its units are free, and no unit is in two lists. The
/// unallocated runs are maximal runs of units without use, among them each of at least 256 units, and all of them where at
/// most 1024 units have no use.
pub fn plans_are_sound()
    ensures { PlansAreSound }
{}

/// A unit that one of the plan's lists names, or that holds data, has that use. Any other unit is for data, unless it lies in
/// an unallocated run.
pub fn roles_are_uses()
    ensures { RolesAreUses }
{}

/// A plan makes no more chunks than the needed space was counted with.
pub fn chunks_are_few()
    ensures { ChunksAreFew }
{}

/// The nodes of ascending units are slots of a tree: distinct multiples of the node size, ascending, within the units.
pub fn places_serve()
    ensures { PlacesServe }
{}

/// The units of a plan, and those of its runs without use, begin on the volume that it was made for.
pub fn plans_fit()
    ensures { PlansFit }
{}
