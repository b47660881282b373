// Laws of the definitions, each the contract of a function that does nothing.
ghost use Rattle.convert_trees_laws.specs.Bounds.{FileTreeIsCounted, PlansSuffice, TreesAreCounted};

use crate::{file_keys_ascend, image_keys_ascend, items_are_short};

/// The items of the file tree take no more bytes than were counted for them.
pub fn file_tree_is_counted()
    ensures { FileTreeIsCounted }
{}

/// The same of the items of every tree whose bytes are counted.
pub fn trees_are_counted()
    ensures { TreesAreCounted }
{
    file_tree_is_counted();
}

/// All nodes of a conversion find slots in the units that its plan takes.
pub fn plans_suffice()
    ensures { PlansSuffice }
{
    trees_are_counted();
    file_keys_ascend();
    image_keys_ascend();
    items_are_short();
}
