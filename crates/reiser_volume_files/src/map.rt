ghost use Rattle.std.specs.Prelude.{◌≡◌, ◌<◌, ◌+◌, ◌^◌, OnOk, OnErr};
ghost use Rattle.reiser_volume_files.specs.Runs.{goes_on, longer, with_block, is_next, extended};

use reiser_walk::{BlockNo, CopyList, Memory};

/// Where a run of a file's blocks lies.
#[derive(Clone, Copy, Debug, PartialEq, Eq)]
pub enum RunFrom {
    /// In neighbouring blocks of the volume, from this one on.
    Disk(BlockNo),
    /// In direct items.
    Tail,
}

/// A run of a file's blocks; block k of a file is its bytes 4096·k to 4096·k + 4095.
#[derive(Clone, Copy, Debug, PartialEq, Eq)]
pub struct FileRun {
    /// The first block of the file.
    pub at: u64,
    /// How many blocks there are, at least 1.
    pub count: u64,
    /// Where they lie.
    pub from: RunFrom,
}

/// Where the blocks of a file lie: runs in ascending blocks of the file. What no run covers is a hole.
pub type FileMap = CopyList<FileRun>;

/// Appends block `k` of the file, or makes the last run longer where that goes on with it. Without memory the map is
/// unchanged.
fn add_block(map: &mut FileMap, k: u64, from: RunFrom) -> Result<(), Memory>
    requires { k + 1 < 2 ^ 64 }
    ensures ok { OnOk result (map.new ≡ with_block map.old k from) }
    ensures err { OnErr result (map.new ≡ map.old) }
{
    let len = map.len();
    if len > 0 {
        let last = map.get(len - 1);
        if last.goes_on(k, from) {
            map.set(len - 1, last.longer());
            return Ok(());
        }
    }
    map.add(FileRun {
        at: k,
        count: 1,
        from,
    })
}

/// Appends block `k` of the file, if it lies anywhere. Without memory the map is unchanged.
pub(crate) fn extend(map: &mut FileMap, k: u64, from: Option<RunFrom>) -> Result<(), Memory>
    requires { k + 1 < 2 ^ 64 }
    ensures ok { OnOk result (map.new ≡ extended map.old k from) }
    ensures err { OnErr result (map.new ≡ map.old) }
{
    match from {
        Some(from) => add_block(map, k, from),
        None => Ok(()),
    }
}

impl FileRun {
    /// The run with one block more.
    fn longer(self) -> FileRun
        requires { self.count + 1 < 2 ^ 64 }
        ensures { result ≡ longer self }
    {
        FileRun {
            at: self.at,
            count: self.count + 1,
            from: self.from,
        }
    }

    /// Whether the run goes on with block `k` of the file, which lies there.
    fn goes_on(&self, k: u64, from: RunFrom) -> bool
        ensures { result ≡ goes_on self.now k from }
    {
        self.at.checked_add(self.count) == Some(k) && self.from.is_next(self.count, from)
    }
}

impl RunFrom {
    /// Whether `other` is where the block that is `n` blocks on lies.
    fn is_next(&self, n: u64, other: RunFrom) -> bool
        ensures { result ≡ is_next self.now n other }
    {
        match (self, other) {
            (RunFrom::Disk(block), RunFrom::Disk(other)) => block.checked_add(n) == Some(other),
            (RunFrom::Tail, RunFrom::Tail) => true,
            (RunFrom::Disk(_), RunFrom::Tail) => false,
            (RunFrom::Tail, RunFrom::Disk(_)) => false,
        }
    }
}
