// Laws of the definitions, each the contract of a function that does nothing.
ghost use Rattle.btr_tree.specs.Laws.{PackingIsFull, NodesNeverFall, MapsAgree, NodesHaveLinuxForm, StandsBySlots};

/// Packing puts items into leaves in their order, each leaf as full as the next item lets it be.
pub fn packing_is_full()
    ensures { PackingIsFull }
{}

/// An item more, wherever it is put in, never makes fewer nodes.
pub fn nodes_never_fall()
    ensures { NodesNeverFall }
{}

/// A tree that is read by the map that gives each address itself is the same by each map that gives the addresses of its
/// nodes themselves.
pub fn maps_agree()
    ensures { MapsAgree }
{}

/// Each node of a tree that was written whole has the form that Linux wants of it.
pub fn nodes_have_linux_form()
    ensures { NodesHaveLinuxForm }
{}

/// A builder stands on each disk that has the same blocks at the slots that were taken, and with the same items. So others
/// may write other blocks between two calls.
pub fn stands_by_slots()
    ensures { StandsBySlots }
{}
