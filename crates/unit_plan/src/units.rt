use reiser_bitmap::CopyList;

/// Numbers of units of 1 MiB, as a list.
pub type Units = CopyList<u64>;
