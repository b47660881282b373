ghost use Rattle.std.specs.Prelude.{◌≡◌, ◌<◌, ◌+◌, ◌^◌, ◌∷◌, ◌++◌, ◌&&◌, [], Bool, Contains, true, length, filter, map, count_by, nat_eq, nat_lt, slice_get, Some, IfOk, OnOk, AllPairs, if◌then◌else◌};
ghost use Rattle.reiser_volume.specs.outside.History.{Image};
ghost use Rattle.btr_item_list.specs.Spots.{is_under};
ghost use Rattle.reiser_volume.specs.reiser_volume_names.Tally.{tally, capped};
ghost use Rattle.reiser_volume.specs.Opened.{IsOpened, links_in};
ghost use Rattle.reiser_volume.specs.Volume.{IsAccepted};
ghost use Rattle.file_items.specs.Spots.{AreBelow, TellsPlaces};
ghost use Rattle.file_items.specs.Names.{indexed_links};
ghost use Rattle.file_items.specs.Sizes.{same_names, AreSizes};
ghost use Rattle.file_items.specs.declared.link_index.RefKey.{RefKey as RefKeyOf};

use btr_item_list::{Spot, Spots, count_before};
use indexmap::IndexMap;
use reiser_volume::{Memory, Volume};
use std::alloc::Global;

/// How many bytes an inode ref has at most in a converted volume.
const REF_LIMIT: u64 = 3900;

/// The names of one object in one directory, by the places of both.
#[derive(Clone, Copy, Debug, PartialEq, Eq, Hash)]
struct RefKey {
    dir: usize,
    object: usize,
}

/// The links of a volume by the directory that they stand in, and by the object that they name, and whether an inode ref has
/// room for each: 33 bytes for a link.
#[derive(Drop)]
pub struct LinkIndex {
    by_dir: Spots,
    by_target: Spots,
    /// Of each link whether its name is an extended one.
    extended: Vec<bool>,
    /// How many links there are.
    count: usize,
    ghost dirs_below: { AreBelow count by_dir },
    ghost targets_below: { AreBelow count by_target },
    ghost extended_count: { length extended.items ≡ count },
}

impl LinkIndex {
    ghost use Rattle.file_items.specs.Known.{IsIndexOf};

    /// Those of a volume. The time is that of a sort.
    pub fn new(alloc: Global, volume: &Volume) -> Result<LinkIndex, Memory>
        ensures count { IfOk result (λ index. index.count ≡ length (links_in volume.now)) }
        ensures index { IfOk result (λ index. (image : Image) → IsAccepted image → IsOpened volume.now image → IsIndexOf volume.now index) }
    {
        let count = volume.link_count();
        let extended = extended_names(alloc, volume)?;
        let by_dir = Spots::sorted(dir_spots(alloc, volume)?)?;
        let by_target = Spots::sorted(target_spots(alloc, volume)?)?;
        Ok(LinkIndex {
            by_dir,
            by_target,
            extended,
            count,
        })
    }

    /// The links that stand in the directory at a place, in the order of the tree.
    pub fn names_in(&self, dir: usize) -> &[Spot]
        ensures spots { result.now ≡ filter (is_under dir) self.now.by_dir }
        ensures below { AreBelow self.now.count result.now }
    {
        self.by_dir.under(dir as u64)
    }

    /// The links that name the object at a place, in the order of the tree.
    pub fn names_of(&self, object: usize) -> &[Spot]
        ensures spots { result.now ≡ filter (is_under object) self.now.by_target }
        ensures below { AreBelow self.now.count result.now }
    {
        self.by_target.under(object as u64)
    }

    /// The index of a link in the directory at a place, in which it stands.
    pub fn index_in(&self, dir: usize, link: usize) -> u64
        ensures { AllPairs (λ a b. a.number < b.number) (filter (is_under dir) self.now.by_dir)
            → result ≡ 2 + count_by (λ spot. nat_lt spot.number link) (filter (is_under dir) self.now.by_dir) }
    {
        index_at(count_before(self.names_in(dir), link))
    }

    /// Whether the name of a link is an extended one.
    pub fn is_extended(&self, link: usize) -> bool
        requires { link < self.now.count }
        ensures { slice_get self.now.extended.items link ≡ Some result }
    {
        self.extended[link]
    }
}

/// Each link under its directory.
fn dir_spots(alloc: Global, volume: &Volume) -> Result<Vec<Spot>, Memory>
    ensures below { IfOk result (λ spots. AreBelow (length (links_in volume.now)) spots.items) }
    ensures places { IfOk result (λ spots. (image : Image) → IsOpened volume.now image → TellsPlaces (λ n. n.dir) volume.now (links_in volume.now) spots.items) }
{
    let mut spots = Vec::new(alloc);
    for n in 0..volume.link_count() {
        spots.push(Spot {
            of: volume.link(n).dir as u64,
            number: n,
        })?;
    }
    Ok(spots)
}

/// Each link under the object that it names.
fn target_spots(alloc: Global, volume: &Volume) -> Result<Vec<Spot>, Memory>
    ensures below { IfOk result (λ spots. AreBelow (length (links_in volume.now)) spots.items) }
    ensures places { IfOk result (λ spots. (image : Image) → IsOpened volume.now image → TellsPlaces (λ n. n.target) volume.now (links_in volume.now) spots.items) }
{
    let mut spots = Vec::new(alloc);
    for n in 0..volume.link_count() {
        spots.push(Spot {
            of: volume.link(n).object as u64,
            number: n,
        })?;
    }
    Ok(spots)
}

/// Of each link whether the names of its object in its directory, up to it, take more than an inode ref has.
fn extended_names(alloc: Global, volume: &Volume) -> Result<Vec<bool>, Memory>
    ensures count { IfOk result (λ extended. length extended.items ≡ length (links_in volume.now)) }
    ensures extended { IfOk result (λ extended. (image : Image) → IsOpened volume.now image → extended.items ≡ map (λ e. e.extended) (indexed_links (links_in volume.now))) }
{
    let mut sizes = IndexMap::new(alloc);
    let mut extended = Vec::new(alloc);
    for n in 0..volume.link_count() {
        let link = volume.link(n);
        let names = RefKey {
            dir: link.dir,
            object: link.object,
        };
        let size = (link.name.len() as u64).saturating_add(10);
        let size = add_size(&mut sizes, names, size)?;
        extended.push(size > REF_LIMIT)?;
    }
    Ok(extended)
}

/// Adds to a size, which stays at the last value of 64 bits.
fn add_size(sizes: &mut IndexMap<RefKey, u64>, names: RefKey, size: u64) -> Result<u64, Memory>
    ensures size { IfOk result (λ now. now ≡ capped (tally same_names sizes.old names + size)) }
    ensures sizes { OnOk result ((q : RefKeyOf) → tally same_names sizes.new q ≡ (if same_names names q then capped (tally same_names sizes.old names + size) else tally same_names sizes.old q)) }
{
    let now = sizes.get(&names).copied().unwrap_or(0).saturating_add(size);
    sizes.insert(names, now)?;
    Ok(now)
}

/// The index of the entry behind so many others of its directory. The first two are kept for `.` and `..`.
pub fn index_at(before: usize) -> u64
    ensures { before < 2 ^ 63 → result ≡ 2 + before }
{
    (before as u64).saturating_add(2)
}
