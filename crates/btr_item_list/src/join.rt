// Records of one number become one item.
ghost use Rattle.std.specs.Prelude.{◌≡◌, ◌≢◌, ◌≤◌, ◌<◌, ◌++◌, ℕ, length, slice_range, slice_index_or, OnOk};
ghost use Rattle.std.specs.List.{flat_map};
ghost use Rattle.btr_node.specs.Leaf.{Item};
ghost use Rattle.btr_item_list.specs.Groups.{ascending};
ghost use Rattle.btr_item_list.specs.Lists.{offset_of, joined};

use crate::list::ItemList;
use btr_node::{Key, Memory};

impl ItemList {
    /// Appends an item of this object and kind for each offset that some records have, ascending: its body is the records
    /// of this offset, one after the other in their order. The records are ordered by it.
    pub fn add_joined(
        &mut self,
        objectid: u64,
        kind: u8,
        records: &mut ItemList,
        body: &mut Vec<u8>,
    ) -> Result<(), Memory>
        ensures { OnOk result (self.new ≡ self.old ++ joined objectid kind records.old) }
    {
        records.sort()?;
        self.add_runs(objectid, kind, records, body)
    }

    /// The same of records that ascend by their offsets.
    fn add_runs(
        &mut self,
        objectid: u64,
        kind: u8,
        records: &ItemList,
        body: &mut Vec<u8>,
    ) -> Result<(), Memory>
        requires sorted { records.now ≡ ascending offset_of records.now }
        ensures { OnOk result (self.new ≡ self.old ++ joined objectid kind records.now) }
    {
        let mut next = 0;
        while next < records.len() {
            let end = records.run_end(next);
            records.gather(body, next, end)?;
            let key = Key {
                objectid,
                kind,
                offset: records.offset_at(next),
            };
            self.add(key, body)?;
            next = end;
        }
        Ok(())
    }

    /// The offset of item `i`.
    fn offset_at(&self, i: usize) -> u64
        requires { i < length self.now }
        ensures { (d : Item) → result ≡ offset_of (slice_index_or self.now i d) }
    {
        self.key(i).offset
    }

    /// The end of the items of one offset from `first` on.
    fn run_end(&self, first: usize) -> usize
        requires { first < length self.now }
        ensures some { first < result }
        ensures within { result ≤ length self.now }
        ensures same { (k : ℕ) (d : Item) → first ≤ k → k < result → offset_of (slice_index_or self.now k d) ≡ offset_of (slice_index_or self.now first d) }
        ensures apart { (d : Item) → result < length self.now → offset_of (slice_index_or self.now result d) ≢ offset_of (slice_index_or self.now first d) }
    {
        let len = self.len();
        let offset = self.offset_at(first);
        let mut end = first + 1;
        while end < len && self.offset_at(end) == offset {
            end += 1;
        }
        end
    }

    /// The bodies of some items, one after the other.
    fn gather(&self, body: &mut Vec<u8>, first: usize, end: usize) -> Result<(), Memory>
        requires ordered { first ≤ end }
        requires within { end ≤ length self.now }
        ensures { OnOk result (body.new.items ≡ flat_map (λ i. i.1) (slice_range self.now first end)) }
    {
        body.clear();
        for i in first..end {
            body.extend_from_slice(self.body(i))?;
        }
        Ok(())
    }
}
