ghost use Rattle.btr_reader.specs.MetadataLaws.{MetadataDecides, ReservedBlocksAreSpare, SamePartsDecide};

/// Where neither the superblock nor a node nor an extent of a Btrfs volume lies in one of some blocks, nothing that is read of the
/// volume depends on them: neither what is refused of it nor its rows nor its saved image.
pub fn metadata_decides()
    ensures { MetadataDecides }
{}

/// What differs from a Btrfs volume in reserved blocks alone is the same volume, if none of its parts lies in one of them.
pub fn reserved_blocks_are_spare()
    ensures { ReservedBlocksAreSpare }
{}

/// Two disks of one length that have the same superblock, nodes, extents and blocks of the saved image hold the same volume.
pub fn same_parts_decide()
    ensures { SamePartsDecide }
{}
