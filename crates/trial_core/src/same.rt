// Whether rows are the same.
ghost use Rattle.std.specs.Prelude.{◌≡◌, ◌↔◌, IsTrue};
ghost use Rattle.trial_core.specs.Same.{SameFlags, SameOwner, SamePlace, SameTimes, SameContent};

use reiser_volume::fs_rows::{Path, Row, Rows};

/// Whether two lists of rows are the same.
pub fn same_rows(rows: &Rows, others: &Rows) -> bool
    ensures { IsTrue result ↔ (others.now ≡ rows.now) }
{
    if rows.len() != others.len() {
        return false;
    }
    for i in 0..rows.len() {
        if !same_row(rows.get(i), others.get(i)) {
            return false;
        }
    }
    true
}

/// Whether two rows are the same.
fn same_row(row: &Row, other: &Row) -> bool
    ensures { IsTrue result ↔ (other.now ≡ row.now) }
{
    same_place(row, other)
        && same_owner(row, other)
        && same_times(row, other)
        && same_flags(row, other)
        && same_content(row, other)
}

/// Whether the paths are the same, and how many the object has.
fn same_place(row: &Row, other: &Row) -> bool
    ensures { IsTrue result ↔ SamePlace row.now other.now }
{
    same_path(&row.path, &other.path)
        && same_path(&row.least, &other.least)
        && row.names == other.names
}

/// Whether two paths are the same.
fn same_path(path: &Path, other: &Path) -> bool
    ensures { IsTrue result ↔ (other.now ≡ path.now) }
{
    path == other
}

/// Whether the kind, the permissions and the owners are the same.
fn same_owner(row: &Row, other: &Row) -> bool
    ensures { IsTrue result ↔ SameOwner row.now other.now }
{
    row.kind == other.kind && row.mode == other.mode && row.uid == other.uid && row.gid == other.gid
}

/// Whether the times are the same.
fn same_times(row: &Row, other: &Row) -> bool
    ensures { IsTrue result ↔ SameTimes row.now other.now }
{
    row.atime == other.atime && row.mtime == other.mtime && row.ctime == other.ctime
}

/// Whether the flags are the same.
fn same_flags(row: &Row, other: &Row) -> bool
    ensures { IsTrue result ↔ SameFlags row.now other.now }
{
    row.sync == other.sync
        && row.immutable == other.immutable
        && row.append == other.append
        && row.nodump == other.nodump
        && row.noatime == other.noatime
}

/// Whether the bytes, the target or the numbers of the device are the same.
fn same_content(row: &Row, other: &Row) -> bool
    ensures { IsTrue result ↔ SameContent row.now other.now }
{
    row.major == other.major
        && row.minor == other.minor
        && row.length == other.length
        && row.mark == other.mark
        && row.target == other.target
}
