// What is met of one inode of a file tree, item by item.
ghost use Rattle.std.specs.Prelude.{◌≡◌, ◌≢◌, ◌*◌, ◌++◌, ◌∷◌, ◌&&◌, [], List, length, Some};
ghost use Rattle.std.specs.Bool.{Decides};
ghost use Rattle.std.specs.List.{sum_by};
ghost use Rattle.std.specs.Option.{MatchOption};
ghost use Rattle.btr_check_rules.specs.btr_reader.btr_keys.DirEntry.{dir_items_of};
ghost use Rattle.btr_check_rules.specs.btr_reader.btr_keys.Extref.{extrefs_of};
ghost use Rattle.btr_check_rules.specs.btr_reader.btr_keys.InodeRef.{inode_refs_of};
ghost use Rattle.btr_check_rules.specs.btr_reader.btr_node.Leaf.{Item};
ghost use Rattle.btr_check_rules.specs.btr_reader.btr_reader_names.Inodes.{kind_of_mode};
ghost use Rattle.btr_check_rules.specs.btr_reader.btr_super.declared.superblock.Super.{Super as SuperOf};
ghost use Rattle.btr_check_rules.specs.btr_reader.fs_rows.declared.row.Kind.TheVariants.{Directory};
ghost use Rattle.btr_check_rules.specs.Names.{or_none};
ghost use Rattle.btr_check_items.specs.Runs.{AreKept, IsRunOf};
ghost use Rattle.btr_check_files.specs.Told.{index_by, told_by};
ghost use Rattle.btr_check_files.specs.Counts.{IsTallyOf, TellsOwn, capped, entry_letters, extents_of, letters_in, names_in};

use crate::tally::Tally;
use btr_check_items::ExtentRun;
use btr_check_rules::btr_reader::btr_reader_walk::Key;
use btr_check_rules::btr_reader::btr_reader_walk::btr_keys::btrfs_format::key::{
    DIR_INDEX, EXTENT_DATA, INODE_EXTREF, INODE_ITEM, INODE_REF,
};
use btr_check_rules::btr_reader::btr_reader_walk::btr_keys::btrfs_format::object::FIRST_FREE_OBJECTID;
use btr_check_rules::btr_reader::btr_reader_walk::btr_keys::{
    DirItems, Extrefs, FileExtent, Inode, InodeRefs,
};
use btr_check_rules::btr_reader::btr_super::Super;
use btr_check_rules::btr_reader::fs_rows::Kind;

/// How many names an inode ref tells. One off its grammar tells none.
fn refs_in(body: &[u8]) -> u64
    ensures { result ≡ length (or_none (inode_refs_of body.now)) }
{
    match InodeRefs::read(body) {
        Some(names) => names.len() as u64,
        None => 0,
    }
}

/// The same of an extref.
fn extrefs_in(body: &[u8]) -> u64
    ensures { result ≡ length (or_none (extrefs_of body.now)) }
{
    match Extrefs::read(body) {
        Some(names) => names.len() as u64,
        None => 0,
    }
}

/// How many letters the names of some entries have; the largest number where there are more.
fn entry_letters(entries: &DirItems<'_>) -> u64
    ensures { result ≡ capped (entry_letters entries.now) }
{
    let mut letters: u64 = 0;
    for i in 0..entries.len() {
        letters = letters.saturating_add(entries.get(i).name.len() as u64);
    }
    letters
}

/// The same of a directory index.
fn letters_in(body: &[u8]) -> u64
    ensures { result ≡ capped (entry_letters (or_none (dir_items_of body.now))) }
{
    match DirItems::read(body) {
        Some(entries) => entry_letters(&entries),
        None => 0,
    }
}

/// How many names an item tells: one that is no reference of an inode tells none.
fn name_count(key: &Key, body: &[u8]) -> u64
    ensures { result ≡ length (told_by (key.now, body.now)) }
{
    if key.kind == INODE_REF {
        refs_in(body)
    } else if key.kind == INODE_EXTREF {
        extrefs_in(body)
    } else {
        0
    }
}

/// How many letters the names of the entries of an item have, where it is a directory index; the largest number where there
/// are more.
fn letter_count(key: &Key, body: &[u8]) -> u64
    ensures { result ≡ capped (sum_by (λ e. length e.entry.name) (index_by (key.now, body.now))) }
{
    if key.kind == DIR_INDEX {
        letters_in(body)
    } else {
        0
    }
}

/// Whether all of these rules are kept.
fn all_of(links: bool, size: bool, bytes: bool, covers: bool, root: bool) -> bool
    ensures { result ≡ (links && (size && (bytes && (covers && root)))) }
{
    links && size && bytes && covers && root
}

/// The extents of an inode with that of a body; None where it is not as Linux writes it, or not behind those before.
fn next_run(sup: &Super, t: &Tally, place: u64, body: &[u8]) -> Option<ExtentRun>
    ensures { (items : List Item) (i : Item) → i.0.offset ≡ place → i.1 ≡ body.now → AreKept sup.now t.now.inode items → IsRunOf items t.now.extents
        → MatchOption result (¬ AreKept sup.now t.now.inode (items ++ i ∷ [])) (λ run. AreKept sup.now t.now.inode (items ++ i ∷ []) × IsRunOf (items ++ i ∷ []) run) }
{
    match FileExtent::read(body) {
        Some(e) => t.extents.with(sup, &t.inode, place, &e),
        None => None,
    }
}

impl Tally {
    /// An inode of which nothing was met yet.
    pub fn of(inode: Inode, kind: Kind) -> Tally
        ensures inode { result.inode ≡ inode }
        ensures tally { (s : SuperOf) → kind_of_mode inode.mode ≡ Some kind → (i : Item) → i.0.kind ≡ INODE_ITEM → IsTallyOf s (i ∷ []) result }
    {
        Tally {
            inode,
            kind,
            names: 0,
            letters: 0,
            extents: ExtentRun::new(),
        }
    }

    /// The tally with one more item of the inode; None where that is an extent that Linux would not take there.
    pub fn with(self, sup: &Super, key: &Key, body: &[u8]) -> Option<Tally>
        ensures { (own : List Item) → IsTallyOf sup.now own self
            → MatchOption result (¬ AreKept sup.now self.inode (extents_of (own ++ (key.now, body.now) ∷ []))) (λ next. IsTallyOf sup.now (own ++ (key.now, body.now) ∷ []) next × (next.inode ≡ self.inode)) }
    {
        if key.kind == EXTENT_DATA {
            self.with_extent(sup, key, body)
        } else {
            Some(self.with_names(key, body))
        }
    }

    /// The same of an extent.
    fn with_extent(self, sup: &Super, key: &Key, body: &[u8]) -> Option<Tally>
        requires { key.now.kind ≡ EXTENT_DATA }
        ensures { (own : List Item) → IsTallyOf sup.now own self
            → MatchOption result (¬ AreKept sup.now self.inode (extents_of (own ++ (key.now, body.now) ∷ []))) (λ next. IsTallyOf sup.now (own ++ (key.now, body.now) ∷ []) next × (next.inode ≡ self.inode)) }
    {
        match next_run(sup, &self, key.offset, body) {
            Some(extents) => Some(Tally { extents, ..self }),
            None => None,
        }
    }

    /// The same of an item that is no extent.
    fn with_names(self, key: &Key, body: &[u8]) -> Tally
        requires { key.now.kind ≢ EXTENT_DATA }
        ensures inode { result.inode ≡ self.inode }
        ensures tally { (s : SuperOf) (own : List Item) → IsTallyOf s own self → IsTallyOf s (own ++ (key.now, body.now) ∷ []) result }
    {
        let names = self.names.saturating_add(name_count(key, body));
        let letters = self.letters.saturating_add(letter_count(key, body));
        Tally {
            names,
            letters,
            ..self
        }
    }

    /// Whether the inode has as many links as names were met.
    fn has_links(&self) -> bool
        ensures { (own : List Item) (s : SuperOf) → IsTallyOf s own self.now → Decides result (self.now.inode.nlink ≡ names_in own) }
    {
        self.inode.nlink as u64 == self.names
    }

    /// Whether the size is that of a directory with the entries that were met. Only a directory has one.
    fn has_size(&self) -> bool
        ensures { (own : List Item) (s : SuperOf) → IsTallyOf s own self.now → Decides result (kind_of_mode self.now.inode.mode ≡ Some Directory → self.now.inode.size ≡ 2 * letters_in own) }
    {
        match self.kind {
            Kind::Directory => self.inode.size as u128 == 2 * self.letters as u128,
            _ => true,
        }
    }

    /// Whether inode 256 is the root directory, with one name; any other is none.
    fn is_root(&self, ino: u64) -> bool
        ensures { (own : List Item) (s : SuperOf) → IsTallyOf s own self.now → Decides result (ino ≡ FIRST_FREE_OBJECTID → (kind_of_mode self.now.inode.mode ≡ Some Directory) × (names_in own ≡ 1)) }
    {
        if ino != FIRST_FREE_OBJECTID {
            return true;
        }
        match self.kind {
            Kind::Directory => self.names == 1,
            _ => false,
        }
    }

    /// Whether the inode with this number tells what was met of it.
    pub fn is_told(&self, sup: &Super, ino: u64) -> bool
        ensures { (own : List Item) → IsTallyOf sup.now own self.now → Decides result (TellsOwn sup.now ino self.now.inode own) }
    {
        let links = self.has_links();
        let size = self.has_size();
        let bytes = self.extents.has_nbytes(&self.inode);
        let covers = self.extents.covers(sup, &self.inode);
        let root = self.is_root(ino);
        all_of(links, size, bytes, covers, root)
    }
}
