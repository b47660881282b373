ghost use Rattle.std.specs.Prelude.{◌≡◌, ◌≤◌, ◌<◌, ℕ, Bool, Option, List, map, take, length, slice_get, Some, IfErr, IfOk};
ghost use Rattle.std.specs.Result.{MatchResult};
ghost use Rattle.btr_reader_walk.specs.outside.History.{Image};
ghost use Rattle.fs_paths.specs.fs_rows.Rows.{row_of};
ghost use Rattle.fs_paths.specs.fs_rows.declared.row.Kind.{Kind as KindOf};
ghost use Rattle.fs_paths.specs.fs_rows.declared.row.Kind.TheVariants.{Symlink};
ghost use Rattle.fs_paths.specs.fs_rows.declared.row.Row.{Row as RowOf};
ghost use Rattle.fs_paths.specs.declared.node_link.PathTo.{PathTo as PathOf};
ghost use Rattle.fs_paths.specs.declared.node.NodeId.{NodeId as NodeOf};
ghost use Rattle.fs_paths.specs.Paths.{ArePaths};
ghost use Rattle.btr_reader_walk.specs.Events.{TreeItem};
ghost use Rattle.btr_reader_walk.specs.declared.map.MapRange.{MapRange as RangeOf};
ghost use Rattle.btr_reader_names.specs.Inodes.{kind_of_mode};
ghost use Rattle.btr_reader_names.specs.Steps.{inode_node, links_of};
ghost use Rattle.btr_reader_contents.specs.Contents.{wanted_inode, HasContents, known_content};
ghost use Rattle.btr_reader_contents.specs.declared.wanted.Wanted.{Wanted as WantedOf};
ghost use Rattle.btr_reader.specs.Made.{IsMemory, IsReadTree, bytes_at, made_row};
ghost use Rattle.fs_paths.specs.fs_rows.Content.{IsContent};
ghost use Rattle.btr_reader_names.specs.Refuses.{IsNoFault};

use crate::refusal::refused;
use crate::row::{inode_row, tree_row};
use btr_reader_contents::{Contents, wanted_inode};
use btr_reader_names::{NameTable, kind_of_mode};
use btr_reader_walk::{BtrAnswer, BtrRule, Inode, Memory};
use btr_space_items::btrfs_format::object::FIRST_FREE_OBJECTID;
use fs_paths::PathTo;
use fs_paths::fs_rows::{Content, Row, RowPlace, Rows, no_content};
use std::alloc::Global;

/// The row at a path, behind those of the paths before it.
pub fn row_at(
    alloc: Global,
    names: &NameTable,
    contents: &Contents,
    path: &PathTo,
    rows: &Rows,
) -> Result<Row, BtrAnswer>
    ensures cause { IfErr result IsNoFault }
    ensures row { (named : NodeOf → Bool) (image : Image) (ranges : List RangeOf) (items : List TreeItem) (root : ℕ) (has_root : ℕ → Bool) → IsReadTree names.now named (known_content contents.now) image ranges items root has_root →
        (list : List PathOf) → ArePaths (links_of names.now named) (inode_node FIRST_FREE_OBJECTID) list → (i : ℕ) → slice_get list i ≡ Some path.now → rows.now ≡ map (λ p. row_of (made_row image ranges items list p)) (take i list) →
        MatchResult result (λ row. row ≡ row_of (made_row image ranges items list path.now)) IsMemory }
{
    if path.target.space != 0 {
        let row = tree_row(alloc, &path.path)?;
        return Ok(row);
    }
    let ino = path.target.number;
    let Some(own) = names.inode(ino) else {
        return Err(refused(FIRST_FREE_OBJECTID, BtrRule::NoInode));
    };
    let Some(kind) = kind_of_mode(own.mode) else {
        return Err(refused(FIRST_FREE_OBJECTID, BtrRule::Body));
    };
    let content = content(alloc, contents, ino, &own)?;
    let spot = spot(path, rows)?;
    Ok(inode_row(spot, &own, kind, content))
}

/// What a row has of the bytes of an inode.
fn content(alloc: Global, contents: &Contents, ino: u64, own: &Inode) -> Result<Content, Memory>
    ensures { (kind : KindOf) (plan : ℕ → Option WantedOf) (image : Image) (ranges : List RangeOf) (items : List TreeItem) → HasContents plan image ranges items (known_content contents.now) → plan ino ≡ wanted_inode own.now →
        kind_of_mode own.now.mode ≡ Some kind → (kind ≡ Symlink → own.now.size ≤ 4095) → IfOk result (λ c. IsContent kind (bytes_at image ranges items ino own.now kind) c.length c.mark c.target) }
{
    match wanted_inode(own) {
        Some(wanted) => contents.content(alloc, ino, wanted),
        None => no_content(alloc),
    }
}

/// Where a row stands, behind those of the paths before it.
fn spot(path: &PathTo, rows: &Rows) -> Result<RowPlace, Memory>
    ensures path { IfOk result (λ spot. spot.path ≡ path.now.path) }
    ensures names { IfOk result (λ spot. spot.names ≡ path.now.names) }
    ensures earlier { path.now.least < length rows.now → IfOk result (λ spot. (row : RowOf) → slice_get rows.now path.now.least ≡ Some row → spot.least ≡ row.path) }
    ensures first { length rows.now ≤ path.now.least → IfOk result (λ spot. spot.least ≡ path.now.path) }
{
    let least = if path.least < rows.len() {
        rows.get(path.least).path.clone()?
    } else {
        path.path.clone()?
    };
    Ok(RowPlace {
        path: path.path.clone()?,
        least,
        names: path.names,
    })
}
