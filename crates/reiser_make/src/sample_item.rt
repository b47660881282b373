ghost use Rattle.std.specs.Prelude.{◌≡◌, ◌<◌, ◌≤◌, ◌+◌, ◌-◌, ◌*◌, ◌∷◌, ◌++◌, [], length, slice_get, slice_index_or, true, IfSome};
ghost use Rattle.reiser_items.specs.Stat.{stat_length};
ghost use Rattle.reiser_make.specs.Content.{IsSmallFile};
ghost use Rattle.reiser_make.specs.Items.{
  items_of_name,
  items_of_content,
  directory_items,
  attributes,
  stat_item,
  item,
  pointer_items,
  byte_items,
  file_units,
  first_direct_of,
  base_time,
  user_of,
  group_of,
  IsBodyOf,
  IsSampleItem,
  FitsOld,
};
ghost use Rattle.reiser_make.specs.Shape.{object_count, directory_count, file_id, name_count, stored_of};
ghost use Rattle.reiser_make.specs.declared.sample_entry.SampleEntry.TheVariants as contents;

use crate::object::{ObjectId, directory_count, name_count, names_in};
use crate::sample::{Sample, stored_of};
use crate::sample_entry::SampleEntry;
use reiser_items::vol_block::DIRECTORY_MODE;
use reiser_items::{ItemHead, ItemKind, StatData};

/// What the body of an item is.
#[derive(Clone, Copy, Debug, PartialEq, Eq)]
pub enum Body {
    /// Stat data.
    Attributes(StatData),
    /// The entries of the root.
    Root,
    /// The entries of this directory.
    Names(u32),
    /// The pointers to the whole blocks of the file of this name.
    Pointers(u32),
    /// The bytes behind the whole blocks of the file of this name.
    Bytes(u32),
    /// This name of a file, as the target of a symlink.
    Target(u32),
}

/// An item of the tree, without its place in a leaf.
#[derive(Clone, Copy, Debug, PartialEq, Eq)]
pub struct SampleItem {
    /// The item's key, version, count and length.
    pub head: ItemHead,
    /// What its body is.
    pub body: Body,
}

/// Who owns an object.
#[derive(Clone, Copy, Debug, PartialEq, Eq)]
pub enum Owner {
    /// User and group 0.
    System,
    /// User 1000 of group 100.
    User,
}

/// The count of an item that has no entries, as Linux writes it.
const NO_COUNT: u16 = 0xFFFF;

/// What an old stat item has where the object has no direct item.
const NO_DIRECT_BYTE: u32 = 0xFFFF_FFFF;

/// The time of the root and of directories, in seconds since 1970. That of the object of name i is i seconds later.
const BASE_TIME: u32 = 1_000_000_000;

impl Sample {
    /// Item `part` of object `object`, in the order of their keys: of the root, a directory, or what a name stands for.
    #[tactic(auto, unfolding(crate::specs::Items::items_of_name))]
    pub fn item(&self, object: u32, part: u32) -> Option<SampleItem>
        requires { object < object_count (length self.now.names) }
        ensures item { result ≡ slice_get (items_of_name self.now object) part }
        ensures right { IfSome result (IsSampleItem self.now) }
        ensures few { IfSome result (λ _. part < 3) }
    {
        let number = self.number();
        let directories = directory_count(number);
        if object == 0 {
            let count = 2 + directories as u16;
            self.directory_item(ObjectId::root(), count, count, Body::Root, part)
        } else if object < directories + 1 {
            let count = 2 + names_in(number, object - 1) as u16;
            self.directory_item(
                ObjectId::directory(object - 1),
                2,
                count,
                Body::Names(object - 1),
                part,
            )
        } else {
            self.item_of_name(object - directories - 1, part)
        }
    }

    /// An item of a directory with so many links and so many entries, each of 24 bytes.
    fn directory_item(
        &self,
        id: ObjectId,
        links: u16,
        count: u16,
        body: Body,
        part: u32,
    ) -> Option<SampleItem>
        requires count { count ≤ 102 }
        requires body { IsBodyOf self.now (item id 1 ItemKind.Directory true count (24 * count) body).head body }
        ensures item { result ≡ slice_get (directory_items self.now.old id links count body) part }
        ensures right { IfSome result (IsSampleItem self.now) }
        ensures few { IfSome result (λ _. part < 3) }
    {
        let length = 24 * count;
        let stat = attributes(
            DIRECTORY_MODE as u16,
            links as u32,
            length as u64,
            Owner::System,
            BASE_TIME,
            (length as u32).div_ceil(512),
            NO_DIRECT_BYTE,
        );
        match part {
            0 => Some(self.stat_item(id, stat)),
            1 => Some(bare_item(id, 1, ItemKind::Directory, true, count, length, body)),
            _ => None,
        }
    }

    /// An item of what name `i` stands for.
    #[tactic(auto, unfolding(crate::specs::Items::items_of_content))]
    fn item_of_name(&self, i: u32, part: u32) -> Option<SampleItem>
        requires { i < length self.now.names }
        ensures item { result ≡ slice_get (items_of_content self.now i (slice_index_or self.now.names i contents.Name)) part }
        ensures right { IfSome result (IsSampleItem self.now) }
        ensures few { IfSome result (λ _. part < 3) }
    {
        match self.content(i) {
            SampleEntry::Name => None,
            SampleEntry::Symlink => self.symlink_item(i, part),
            SampleEntry::File {
                whole,
                rest,
                sparse,
            } => self.file_item(i, whole, rest, sparse, part),
        }
    }

    #[tactic(auto, unfolding(crate::specs::Items::items_of_content))]
    fn symlink_item(&self, i: u32, part: u32) -> Option<SampleItem>
        requires { i < length self.now.names }
        ensures item { result ≡ slice_get (items_of_content self.now i contents.Symlink) part }
        ensures right { IfSome result (IsSampleItem self.now) }
        ensures few { IfSome result (λ _. part < 3) }
    {
        let id = ObjectId::file(self.number(), i);
        let stat = attributes(0xA1FF, 1, 6, Owner::User, BASE_TIME + i, 1, 1);
        match part {
            0 => Some(self.stat_item(id, stat)),
            1 => Some(bare_item(
                id,
                1,
                ItemKind::Direct,
                true,
                0,
                6,
                Body::Target(i.saturating_sub(1)),
            )),
            _ => None,
        }
    }

    #[tactic(auto, unfolding(crate::specs::Items::items_of_content))]
    fn file_item(
        &self,
        i: u32,
        whole: u16,
        rest: u16,
        sparse: bool,
        part: u32,
    ) -> Option<SampleItem>
        requires name { i < length self.now.names }
        requires content { slice_index_or self.now.names i contents.Name ≡ contents.File whole rest sparse }
        requires small { IsSmallFile whole rest }
        ensures item { result ≡ slice_get (items_of_content self.now i (contents.File whole rest sparse)) part }
        ensures right { IfSome result (IsSampleItem self.now) }
        ensures few { IfSome result (λ _. part < 3) }
    {
        if part == 0 {
            let id = ObjectId::file(self.number(), i);
            Some(self.stat_item(id, self.file_stat(i, whole, rest, sparse)))
        } else {
            self.stored_item(i, whole, rest, part - 1)
        }
    }

    /// An item of what a file holds: its pointers, or the bytes behind its whole blocks.
    fn stored_item(&self, i: u32, whole: u16, rest: u16, part: u32) -> Option<SampleItem>
        requires name { i < length self.now.names }
        requires small { IsSmallFile whole rest }
        requires pointers { IsBodyOf self.now (item (file_id (length self.now.names) i) 1 ItemKind.Indirect self.now.old 0 (4 * whole) (Body.Pointers i)).head (Body.Pointers i) }
        requires bytes { IsBodyOf self.now (item (file_id (length self.now.names) i) (4096 * whole + 1) ItemKind.Direct self.now.old 0xFFFF rest (Body.Bytes i)).head (Body.Bytes i) }
        ensures item { result ≡ slice_get (pointer_items self.now.old (file_id (length self.now.names) i) i whole ++ byte_items self.now.old (file_id (length self.now.names) i) i whole rest) part }
        ensures right { IfSome result (IsSampleItem self.now) }
        ensures few { IfSome result (λ _. part < 2) }
    {
        if whole == 0 {
            self.rest_item(i, whole, rest, part)
        } else if part == 0 {
            let id = ObjectId::file(self.number(), i);
            Some(bare_item(
                id,
                1,
                ItemKind::Indirect,
                self.is_old(),
                0,
                4 * whole,
                Body::Pointers(i),
            ))
        } else {
            self.rest_item(i, whole, rest, part - 1)
        }
    }

    fn rest_item(&self, i: u32, whole: u16, rest: u16, part: u32) -> Option<SampleItem>
        requires name { i < length self.now.names }
        requires small { IsSmallFile whole rest }
        requires bytes { IsBodyOf self.now (item (file_id (length self.now.names) i) (4096 * whole + 1) ItemKind.Direct self.now.old 0xFFFF rest (Body.Bytes i)).head (Body.Bytes i) }
        ensures item { result ≡ slice_get (byte_items self.now.old (file_id (length self.now.names) i) i whole rest) part }
        ensures right { IfSome result (IsSampleItem self.now) }
        ensures few { IfSome result (λ _. part < 1) }
    {
        if rest > 0 && part == 0 {
            let id = ObjectId::file(self.number(), i);
            Some(bare_item(
                id,
                4096 * whole as u64 + 1,
                ItemKind::Direct,
                self.is_old(),
                NO_COUNT,
                rest,
                Body::Bytes(i),
            ))
        } else {
            None
        }
    }

    fn file_stat(&self, i: u32, whole: u16, rest: u16, sparse: bool) -> StatData
        requires name { i < length self.now.names }
        requires small { IsSmallFile whole rest }
        ensures stat { result ≡ attributes 0x81A4 (name_count (length self.now.names) i) (4096 * whole + rest) Owner.User (base_time + i) (file_units (stored_of whole sparse) rest) (first_direct_of whole rest) }
        ensures narrow { FitsOld self.now.old result }
    {
        attributes(
            0x81A4,
            name_count(self.number(), i),
            4096 * whole as u64 + rest as u64,
            Owner::User,
            BASE_TIME + i,
            file_units(stored_of(whole, sparse), rest),
            first_direct_byte(whole, rest),
        )
    }

    fn stat_item(&self, id: ObjectId, stat: StatData) -> SampleItem
        requires { FitsOld self.now.old stat }
        ensures item { result ≡ stat_item self.now.old id stat }
        ensures right { IsSampleItem self.now result }
    {
        let old = self.is_old();
        bare_item(
            id,
            0,
            ItemKind::Stat,
            old,
            NO_COUNT,
            if old { 32 } else { 44 },
            Body::Attributes(stat),
        )
    }
}

/// Units of 512 bytes of a file with so many stored blocks and so many bytes behind its whole ones, as Linux counts them.
fn file_units(stored: u16, rest: u16) -> u32
    ensures { result ≡ file_units stored rest }
{
    8 * stored as u32 + if rest == 0 { 0 } else { 8 }
}

/// Where the direct item of a file begins, as version 0 has it.
fn first_direct_byte(whole: u16, rest: u16) -> u32
    ensures { result ≡ first_direct_of whole rest }
{
    if rest == 0 {
        NO_DIRECT_BYTE
    } else {
        4096 * whole as u32 + 1
    }
}

/// Stat data by what a sample varies; `blocks` counts units of 512 bytes.
fn attributes(
    mode: u16,
    nlink: u32,
    size: u64,
    owner: Owner,
    time: u32,
    blocks: u32,
    first_direct_byte: u32,
) -> StatData
    ensures { result ≡ attributes mode nlink size owner time blocks first_direct_byte }
{
    StatData {
        mode,
        attrs: 0,
        nlink,
        size,
        uid: user_of(owner),
        gid: group_of(owner),
        atime: time,
        mtime: time,
        ctime: time,
        blocks,
        rdev: 0,
        first_direct_byte,
    }
}

fn user_of(owner: Owner) -> u32
    ensures { result ≡ user_of owner }
{
    match owner {
        Owner::System => 0,
        Owner::User => 1000,
    }
}

fn group_of(owner: Owner) -> u32
    ensures { result ≡ group_of owner }
{
    match owner {
        Owner::System => 0,
        Owner::User => 100,
    }
}

fn bare_item(
    id: ObjectId,
    offset: u64,
    kind: ItemKind,
    old: bool,
    count: u16,
    length: u16,
    body: Body,
) -> SampleItem
    ensures { result ≡ item id offset kind old count length body }
{
    SampleItem {
        head: ItemHead {
            dir: id.dir,
            object: id.object,
            offset,
            kind,
            old,
            count,
            length,
        },
        body,
    }
}
