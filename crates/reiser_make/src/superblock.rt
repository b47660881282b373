ghost use Rattle.std.specs.Prelude.{◌≡◌, ◌≤◌, ◌<◌, ◌^◌, length};
ghost use Rattle.reiser_make.specs.Inner.{needed};
ghost use Rattle.reiser_make.specs.Superblock.{superblock_bytes, super_fields, fields_bytes};

use crate::bitmap::Usage;
use crate::level::Level;
use crate::object::directory_count;
use crate::sample_plan::SamplePlan;
use reiser_items::{Block, Field, put_fields};

/// What a superblock has of the volume that it begins.
#[derive(Clone, Copy, Debug, PartialEq, Eq)]
pub struct SuperFields {
    /// How many blocks there are.
    pub blocks: u32,
    /// How many of them are free.
    pub free: u32,
    /// The block of the root node.
    pub root: u32,
    /// The height of the tree: one more than the level of its root.
    pub height: u16,
    /// How many bitmap blocks there are.
    pub bitmaps: u16,
    /// The sample's number, which is the volume's identifier.
    pub number: u32,
    /// The first number that no object has, nor any behind it.
    pub unused_object: u32,
}

impl SamplePlan {
    /// Writes the superblock of the volume.
    pub fn put_super(&self, usage: &Usage, into: &mut Block)
        requires needed { usage.now.needed ≡ needed self.now.sample }
        requires blocks { usage.now.needed ≤ usage.now.blocks }
        requires most { usage.now.blocks ≤ 2 ^ 29 }
        ensures { into.new.bytes ≡ superblock_bytes self.now.sample usage.now.blocks }
    {
        self.super_fields(usage).put(&mut into.bytes);
    }

    fn super_fields(&self, usage: &Usage) -> SuperFields
        requires needed { usage.now.needed ≡ needed self.now.sample }
        requires blocks { usage.now.needed ≤ usage.now.blocks }
        requires most { usage.now.blocks ≤ 2 ^ 29 }
        ensures { result ≡ super_fields self.now.sample usage.now.blocks }
    {
        let root = Level::root(self.leaf_count);
        let number = self.sample.number();
        SuperFields {
            blocks: usage.blocks,
            free: usage.free(),
            root: self.node_place(&root, 0),
            height: root.number + 1,
            bitmaps: usage.bitmap_blocks() as u16,
            number,
            unused_object: 3 + directory_count(number) + number,
        }
    }
}

impl SuperFields {
    /// Writes the block.
    #[tactic(auto, unfolding(crate::specs::Superblock::fields_bytes))]
    fn put(&self, into: &mut [u8])
        requires { length into.old ≡ 4096 }
        ensures { into.new ≡ fields_bytes self.now }
    {
        put_fields(
            into,
            &[
                Field::U32(self.blocks),
                Field::U32(self.free),
                Field::U32(self.root),
                Field::U32(18),
                Field::U32(0),
                Field::U32(8192),
                Field::U32(1024),
                Field::U32(0),
                Field::U32(900),
                Field::U32(30),
                Field::U32(30),
                Field::U16(4096),
                Field::U16(972),
                Field::U16(2),
                Field::U16(1),
                Field::Bytes(b"ReIsEr2Fs"),
                Field::Zeros(3),
                Field::U32(3),
                Field::U16(self.height),
                Field::U16(self.bitmaps),
                Field::U16(2),
                Field::Zeros(10),
                Field::U32(self.number),
                Field::Zeros(116),
                Field::U32(1),
                Field::U32(self.unused_object),
                Field::Zeros(3884),
            ],
        );
    }
}
