use reiser_items::BlockNo;

/// Where a volume keeps its tree and its journal, as its superblock says.
#[derive(Clone, Copy, Debug, PartialEq, Eq)]
pub struct ReiserTree {
    /// The block of the root.
    pub root: BlockNo,
    /// One more than the level of the root; leaves have level 1.
    pub height: u16,
    /// The first block of the journal's log.
    pub journal_first: BlockNo,
    /// How many blocks the log has. The journal's header is behind them.
    pub journal_size: u64,
}
