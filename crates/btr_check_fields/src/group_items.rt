// The block groups of the extent tree.
ghost use Rattle.std.specs.Prelude.{◌≡◌, ◌++◌, ◌∷◌, [], OnOk};

use crate::found::GroupAt;
use btr_check_rules::btr_reader::btr_reader_walk::{Key, Memory, Notes};
use btr_check_rules::btr_reader::btr_space_items::BlockGroup;
use btr_check_rules::btr_reader::btr_space_items::btrfs_format::key::BLOCK_GROUP_ITEM;
use std::alloc::Global;

/// The block groups that were met, and the address of one that is off its grammar.
#[derive(Drop)]
pub struct GroupsFound {
    pub groups: Vec<GroupAt>,
    pub wrong: Option<u64>,
}

impl Notes for GroupsFound {
    ghost use Rattle.btr_check_fields.specs.Noted.{HoldsGroups};

    ghost holds = { λ begun notes items. HoldsGroups notes items };

    /// Notes one more item of the extent tree. Items of other kinds are passed over.
    fn note(&mut self, _: Global, key: &Key, body: &[u8], _: u64) -> Result<(), Memory> {
        if key.kind != BLOCK_GROUP_ITEM {
            return Ok(());
        }
        match BlockGroup::read(body) {
            Some(group) => {
                let found = GroupAt {
                    start: key.objectid,
                    length: key.offset,
                    group,
                };
                push_group(&mut self.groups, found)?;
                Ok(())
            }
            None => {
                self.wrong = Some(key.objectid);
                Ok(())
            }
        }
    }
}

fn push_group(groups: &mut Vec<GroupAt>, group: GroupAt) -> Result<(), Memory>
    ensures { OnOk result (groups.new.items ≡ groups.old.items ++ group ∷ []) }
{
    groups.push(group)?;
    Ok(())
}
