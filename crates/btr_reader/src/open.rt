ghost use Rattle.std.specs.Prelude.{◌≡◌, [], Ok, Some, map, IfOk, IfErr, OnOk};
ghost use Rattle.btr_reader_walk.specs.outside.Fault.{HasCauseOf};
ghost use Rattle.btr_reader_walk.specs.outside.History.{OverTold, block_at};
ghost use Rattle.btr_super.specs.Rules.{super_of, NamesNoLog};
ghost use Rattle.btr_reader_walk.specs.Walks.{LieOn};
ghost use Rattle.btr_reader.specs.Chunks.{range_of};
ghost use Rattle.btr_reader_names.specs.Refuses.{IsNoFault};
ghost use Rattle.btr_reader.specs.Opening.{super_on, boot_chunks, opening_refusals, boot_refusals, IsAmong, IsSuperInBounds, IsSuperAnswer, NamesNoLogTree};
ghost use Rattle.btr_reader.specs.Volume.{IsVolumeOn};

use crate::bootstrap::array_chunks;
use crate::chunk::{ChunkAt, add_chunks};
use crate::chunk_tree::read_chunks;
use crate::refusal::refused;
use crate::roots::read_roots;
use crate::trees::{chunk_tree, root_tree};
use crate::volume::Btrfs;
use btr_reader_walk::{Block, BlockSource, BtrAnswer, BtrRefusal, BtrRule, MapRange};
use btr_space_items::btrfs_format::block::{SUPER_BLOCK, SUPER_INFO_OFFSET};
use btr_super::Super;
use std::alloc::Global;

/// The chunks of the bootstrap array, and the map of addresses that they make.
#[derive(Drop)]
struct Boot {
    chunks: Vec<ChunkAt>,
    ranges: Vec<MapRange>,
}

/// The superblock that a block is, read at its place.
fn super_in(block: &Block, device: u64) -> Result<Super, BtrRefusal>
    ensures value { result ≡ super_of block.now.bytes SUPER_BLOCK device }
    ensures bounds { IfOk result IsSuperInBounds }
    ensures known { IfErr result NamesNoLog }
{
    Super::read(block, SUPER_BLOCK, device)
}

/// Reads the superblock of a device of `device` blocks.
fn read_super<S: BlockSource>(src: &mut S, device: u64) -> Result<Super, BtrAnswer>
    requires { device ≡ S.size src.old }
    ensures kept { S.kept src.old src.new }
    ensures cause { HasCauseOf BtrAnswer.Fault (S.faults src.old) (S.faults src.new) result }
    ensures bounds { IfOk result IsSuperInBounds }
    ensures known { IfErr result NamesNoLogTree }
    ensures ok { OverTold S.tells (S.blocks src.old) (λ image. IfOk result (λ s. super_on image ≡ Ok s)) }
    ensures err { OverTold S.tells (S.blocks src.old) (λ image. IfErr result (IsSuperAnswer (super_on image))) }
{
    if device <= SUPER_BLOCK {
        return Err(refused(SUPER_INFO_OFFSET, BtrRule::SuperField));
    }
    let mut block = Block::zero();
    src.read(SUPER_BLOCK, &mut block)?;
    super_by(&block, device)
}

/// The superblock of a device of `device` blocks whose block 16 was read.
pub fn super_by(block: &Block, device: u64) -> Result<Super, BtrAnswer>
    ensures bounds { IfOk result IsSuperInBounds }
    ensures ok { IfOk result (λ s. super_of block.now.bytes SUPER_BLOCK device ≡ Ok s) }
    ensures err { IfErr result (IsSuperAnswer (super_of block.now.bytes SUPER_BLOCK device)) }
    ensures known { IfErr result NamesNoLogTree }
    ensures cause { IfErr result IsNoFault }
{
    Ok(super_in(block, device)?)
}

/// The chunks of the bootstrap array, on a device of `device` blocks.
fn read_boot(alloc: Global, sup: &Super, device: u64) -> Result<Boot, BtrAnswer>
    requires { IsSuperInBounds sup.now }
    ensures inside { IfOk result (λ b. LieOn device b.ranges.items) }
    ensures ok { OnOk result (boot_refusals device (boot_chunks sup.now) ≡ []) }
    ensures chunks { IfOk result (λ b. boot_chunks sup.now ≡ Some b.chunks.items) }
    ensures ranges { IfOk result (λ b. b.ranges.items ≡ map range_of b.chunks.items) }
    ensures err { IfErr result (IsAmong (boot_refusals device (boot_chunks sup.now))) }
    ensures known { IfErr result NamesNoLogTree }
    ensures cause { IfErr result IsNoFault }
{
    let chunks = array_chunks(
        alloc,
        &sup.sys_chunk_array[..sup.sys_chunk_array_size as usize],
    )?;
    let mut ranges = Vec::new(alloc);
    add_chunks(&mut ranges, device, chunks.as_slice())?;
    Ok(Boot { chunks, ranges })
}

impl Btrfs {
    /// Opens a volume: reads its superblock, its chunks and its root tree.
    ///
    /// It is refused exactly where something is wrong with them, apart from faults and want of memory, by one of the
    /// things that are. Refusals of the superblock come first. A log tree is not looked at.
    pub fn open<S: BlockSource>(alloc: Global, src: &mut S) -> Result<Btrfs, BtrAnswer>
        ensures kept { S.kept src.old src.new }
        ensures cause { HasCauseOf BtrAnswer.Fault (S.faults src.old) (S.faults src.new) result }
        ensures known { IfErr result NamesNoLogTree }
        ensures device { IfOk result (λ b. b.device ≡ S.size src.old) }
        ensures opened { OverTold S.tells (S.blocks src.old) (λ image. IfOk result (IsVolumeOn image)) }
        ensures refused { OverTold S.tells (S.blocks src.old) (λ image. IfErr result (IsAmong (opening_refusals image))) }
    {
        let device = src.len();
        let sup = read_super(src, device)?;
        Btrfs::open_with(alloc, src, sup)
    }

    /// The same where block 16 was read already: it is read no second time.
    pub fn open_by<S: BlockSource>(
        alloc: Global,
        src: &mut S,
        block: &Block,
    ) -> Result<Btrfs, BtrAnswer>
        ensures kept { S.kept src.old src.new }
        ensures cause { HasCauseOf BtrAnswer.Fault (S.faults src.old) (S.faults src.new) result }
        ensures known { IfErr result NamesNoLogTree }
        ensures device { IfOk result (λ b. b.device ≡ S.size src.old) }
        ensures opened { OverTold S.tells (S.blocks src.old) (λ image. block.now.bytes ≡ block_at image SUPER_BLOCK → IfOk result (IsVolumeOn image)) }
        ensures refused { OverTold S.tells (S.blocks src.old) (λ image. block.now.bytes ≡ block_at image SUPER_BLOCK → IfErr result (IsAmong (opening_refusals image))) }
    {
        let sup = super_by(block, src.len())?;
        Btrfs::open_with(alloc, src, sup)
    }

    /// Opens the volume of a source with this superblock.
    pub(crate) fn open_with<S: BlockSource>(
        alloc: Global,
        src: &mut S,
        sup: Super,
    ) -> Result<Btrfs, BtrAnswer>
        requires bounds { IsSuperInBounds sup }
        ensures kept { S.kept src.old src.new }
        ensures cause { HasCauseOf BtrAnswer.Fault (S.faults src.old) (S.faults src.new) result }
        ensures known { IfErr result NamesNoLogTree }
        ensures sup { IfOk result (λ b. b.sup ≡ sup) }
        ensures device { IfOk result (λ b. b.device ≡ S.size src.old) }
        ensures opened { OverTold S.tells (S.blocks src.old) (λ image. super_on image ≡ Ok sup → IfOk result (IsVolumeOn image)) }
        ensures refused { OverTold S.tells (S.blocks src.old) (λ image. super_on image ≡ Ok sup → IfErr result (IsAmong (opening_refusals image))) }
    {
        let device = src.len();
        let boot = read_boot(alloc, &sup, device)?;
        let ranges = read_chunks(
            alloc,
            src,
            chunk_tree(&sup),
            device,
            boot.chunks.as_slice(),
            boot.ranges.as_slice(),
        )?;
        let roots = read_roots(alloc, src, root_tree(&sup), ranges.as_slice())?;
        Ok(Btrfs {
            sup,
            device,
            ranges,
            roots,
        })
    }

    /// The superblock.
    pub fn sup(&self) -> &Super
        ensures { result.now ≡ self.now.sup }
    {
        &self.sup
    }
}
