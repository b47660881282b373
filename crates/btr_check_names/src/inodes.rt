// The inodes of a tree, by their numbers.
ghost use Rattle.std.specs.Prelude.{◌≡◌, ◌≢◌, ◌≤◌, true, false, length, nat_lt, slice_get, All, Contains, Some};
ghost use Rattle.std.specs.List.Sorted.{IsPartitionPoint};
ghost use Rattle.std.specs.Option.{MatchOption};
ghost use Rattle.btr_check_names.specs.Inodes.{AscendByNumber, IsNumbered};

use btr_check_rules::btr_reader::fs_rows::Kind;

/// An inode of a tree.
#[derive(Clone, Copy, Debug)]
pub struct InodeAt {
    pub ino: u64,
    pub kind: Kind,
}

/// The place of the first inode whose number is not below this one, or where it would stand.
fn first_from(inodes: &[InodeAt], ino: u64) -> usize
    requires { AscendByNumber inodes.now }
    ensures within { result ≤ length inodes.now }
    ensures parts { IsPartitionPoint (λ i. nat_lt i.ino ino ≡ true) (λ i. nat_lt i.ino ino ≡ false) inodes.now result }
{
    inodes.partition_point(|i| i.ino < ino)
}

/// The place of the inode with a number, among inodes whose numbers ascend.
pub fn place_of(inodes: &[InodeAt], ino: u64) -> Option<usize>
    requires { AscendByNumber inodes.now }
    ensures { MatchOption result (All (λ i. i.ino ≢ ino) inodes.now) (IsNumbered inodes.now ino) }
{
    let at = first_from(inodes, ino);
    if at < inodes.len() && inodes[at].ino == ino {
        Some(at)
    } else {
        None
    }
}

/// The kind of the inode with a number, among inodes whose numbers ascend.
pub fn kind_of(inodes: &[InodeAt], ino: u64) -> Option<Kind>
    requires { AscendByNumber inodes.now }
    ensures { MatchOption result (All (λ i. i.ino ≢ ino) inodes.now) (λ kind. Contains inodes.now (record { ino = ino; kind = kind })) }
{
    match place_of(inodes, ino) {
        Some(at) => Some(inodes[at].kind),
        None => None,
    }
}
