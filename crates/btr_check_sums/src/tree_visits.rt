// The items of a tree of files, one after the other.
ghost use Rattle.std.specs.Prelude.{◌≡◌, ◌++◌, ◌∷◌, [], ℕ, List, map, IfErr, MatchResult, OnOk};
ghost use Rattle.btr_check_rules.specs.btr_reader.btr_keys.FileExtent.{file_extent_of};
ghost use Rattle.btr_check_rules.specs.btr_reader.btr_keys.Inode.{inode_of};
ghost use Rattle.btr_check_rules.specs.btr_reader.btr_reader_walk.Events.{TreeItem, in_leaf};
ghost use Rattle.btr_check_rules.specs.btr_reader.btr_reader_walk.Tree.{bare_item};
ghost use Rattle.btr_check_walk.specs.Parts.{IsVisitAnswer, TellsPart};
ghost use Rattle.btr_check_walk.specs.Walks.{InOrder};
ghost use Rattle.btr_check_sums.specs.TreeUses.{HoldsUses, MeetsData, data_by, owner_by, placed, sums_by};

use crate::tree_uses::{Owner, TreeUses};
use crate::use_of_data::{DataOf, Uses};
use btr_check_items::has_no_sums;
use btr_check_rules::btr_reader::btr_reader_contents::is_hole;
use btr_check_rules::btr_reader::btr_reader_walk::Key;
use btr_check_rules::btr_reader::btr_reader_walk::btr_keys::{
    DiskRange, ExtentContent, FileExtent, Inode,
};
use btr_check_rules::btr_reader::btrfs_format::key::{EXTENT_DATA, INODE_ITEM};
use btr_check_walk::{Answer, ItemVisitor};
use number_runs::Memory;
use std::alloc::Global;

/// Whether data of the inode with this number has checksums, where it is the one in hand.
fn sums_of(owner: &Option<Owner>, number: u64) -> Option<bool>
    ensures { result ≡ sums_by owner.now number }
{
    match owner {
        Some(owner) => {
            if owner.number == number {
                Some(owner.sums)
            } else {
                None
            }
        }
        None => None,
    }
}

/// What a file extent has on the disk, if it has a place there.
fn placed(
    compression: u8,
    written: bool,
    range: &DiskRange,
    is_read: bool,
    sums: Option<bool>,
) -> Option<DataOf>
    ensures { result ≡ placed compression written range.now is_read sums }
{
    if is_hole(range) {
        return None;
    }
    Some(DataOf {
        range: *range,
        compression,
        written,
        is_read,
        sums,
    })
}

/// The same of the file extent that is a body, if it is one.
fn data_of(body: &[u8], is_read: bool, sums: Option<bool>) -> Option<DataOf>
    ensures { result ≡ data_by (file_extent_of body.now) is_read sums }
{
    let extent = FileExtent::read(body)?;
    match &extent.content {
        ExtentContent::Inline(_) => None,
        ExtentContent::Regular(range) => placed(extent.compression, true, range, is_read, sums),
        ExtentContent::Prealloc(range) => placed(extent.compression, false, range, is_read, sums),
    }
}

/// The inode in hand behind an inode item: that one, if it can be read.
fn owner_after(before: Option<Owner>, number: u64, body: &[u8]) -> Option<Owner>
    ensures { result ≡ owner_by before number (inode_of body.now) }
{
    match Inode::read(body) {
        Some(inode) => Some(Owner {
            number,
            sums: !has_no_sums(&inode),
        }),
        None => before,
    }
}

impl TreeUses {
    /// No item was met of a tree of files. Where `is_read` is false what it has is not read: it is the tree that a balance of
    /// data uses.
    pub fn new(is_read: bool, uses: Uses) -> TreeUses
        ensures held { HoldsUses result result [] }
        ensures uses { result.uses ≡ uses }
        ensures is_read { result.is_read ≡ is_read }
    {
        TreeUses {
            is_read,
            owner: None,
            uses,
        }
    }

    /// Meets an inode item.
    fn meet_inode(&mut self, number: u64, body: &[u8])
        ensures owner { self.new.owner ≡ owner_by self.old.owner number (inode_of body.now) }
        ensures is_read { self.new.is_read ≡ self.old.is_read }
        ensures uses { self.new.uses ≡ self.old.uses }
    {
        self.owner = owner_after(self.owner, number, body);
    }

    /// Meets a file extent of the inode with this number.
    fn meet_extent(&mut self, number: u64, body: &[u8]) -> Result<(), Memory>
        ensures owner { self.new.owner ≡ self.old.owner }
        ensures is_read { self.new.is_read ≡ self.old.is_read }
        ensures uses { OnOk result (MeetsData (data_by (file_extent_of body.now) self.old.is_read (sums_by self.old.owner number)) self.old.uses self.new.uses) }
    {
        match data_of(body, self.is_read, sums_of(&self.owner, number)) {
            Some(x) => self.uses.add(&x),
            None => Ok(()),
        }
    }
}

impl ItemVisitor for TreeUses {
    ghost holds = { λ begun now items. HoldsUses begun now (map bare_item items) };

    ghost refuses = { λ begun items part a. ⊥ };

    fn visit(&mut self, _alloc: Global, key: &Key, body: &[u8], _leaf: u64) -> Result<(), Answer> {
        if key.kind == EXTENT_DATA {
            self.meet_extent(key.objectid, body)?;
            return Ok(());
        }
        if key.kind == INODE_ITEM && key.offset == 0 {
            self.meet_inode(key.objectid, body);
        }
        Ok(())
    }
}
