// How much of a volume of ReiserFS is known, by the blocks that are read of it.
use crate::volume_use::VolumeUse;
use outside::{Block, BlockNo, u32_at};
use reiser_node::{ItemHead, ItemKind, LeafView};

/// A round through the leaves of a tree, in the order of their keys.
#[derive(Clone, Copy, Debug, PartialEq, Eq)]
pub enum Round {
    First,
    /// The leaves are read once more from the first on, each for what it has of objects and files.
    Second,
}

/// The blocks in use of a volume of ReiserFS that are accounted for: its journal and its bitmap where they were read, the nodes of its tree that were read,
/// and in a round the blocks that its leaves point to. In the end these are all blocks in use, so that their share tells how far a walk is,
/// though how many nodes the tree has stands nowhere.
///
/// Nobody has checked what is read here, so it serves to tell how far a command is, and nothing else.
#[derive(Drop)]
pub struct Census {
    /// Where the superblock lies. It is read several times.
    place: BlockNo,
    volume: VolumeUse,
    front: u64,
    round: Round,
    /// The key of the last leaf.
    last: u128,
    /// How many leaves were counted as they were read ahead, and are still to be asked for.
    ahead: u64,
    /// What is accounted for in this round.
    done: u64,
}

impl Census {
    /// Nothing is read but the superblock at this place, which tells this.
    pub fn new(place: BlockNo, volume: VolumeUse) -> Census {
        Census {
            place,
            volume,
            front: 0,
            round: Round::First,
            last: 0,
            ahead: 0,
            done: 0,
        }
    }

    /// Takes in a block that is read. Where files are read beside the second round, it counts what is read in place of what is pointed to.
    pub fn reads(&mut self, n: BlockNo, block: &Block, with_files: bool) {
        if n == self.place {
            return;
        }
        if self.front < self.volume.front {
            self.front = self.front.saturating_add(1);
            self.count(1);
            return;
        }
        match Leaf::of(block) {
            Some(leaf) => {
                if leaf.key < self.last && self.round == Round::First {
                    self.round = Round::Second;
                    self.last = 0;
                    self.ahead = 0;
                    self.done = self.front;
                }
                if leaf.key > self.last {
                    self.last = leaf.key;
                    self.asks_for(&leaf, with_files);
                }
            }
            None => self.count(1),
        }
    }

    /// Takes in a block that is read ahead of the command. What matters is a leaf in the first round: it is counted now, and no more where the
    /// command asks for it. What stands before the tree is looked through by then, whether all of it was read or not.
    pub fn reads_ahead(&mut self, block: &Block) {
        if self.round == Round::First {
            if let Some(leaf) = Leaf::of(block) {
                self.count(self.volume.front.saturating_sub(self.front));
                self.front = self.volume.front;
                self.ahead = self.ahead.saturating_add(1);
                self.count(1);
                self.count(leaf.pointers);
            }
        }
    }

    /// Counts a leaf that the command asks for, unless it was counted as it was read ahead.
    fn asks_for(&mut self, leaf: &Leaf, with_files: bool) {
        if self.ahead > 0 {
            self.ahead = self.ahead.saturating_sub(1);
            return;
        }
        self.count(1);
        if self.round == Round::First || !with_files {
            self.count(leaf.pointers);
        }
    }

    fn count(&mut self, blocks: u64) {
        self.done = self.done.saturating_add(blocks);
    }

    /// The round that it is in.
    pub fn round(&self) -> Round {
        self.round
    }

    /// How many blocks are accounted for in this round.
    pub fn done(&self) -> u64 {
        self.done
    }

    /// What the superblock tells.
    pub fn volume(&self) -> VolumeUse {
        self.volume
    }
}

/// A leaf of a tree, as far as it is counted.
#[derive(Clone, Copy, Debug, PartialEq, Eq)]
pub struct Leaf {
    /// The key of its first item, without the kind: the order of keys is that of these numbers.
    pub key: u128,
    /// How many blocks its items point to.
    pub pointers: u64,
}

impl Leaf {
    /// Reads a block as a leaf, if it is one.
    pub fn of(block: &Block) -> Option<Leaf> {
        let view = LeafView::read(block)?;
        let mut key = 0;
        let mut pointers = 0_u64;
        for i in 0..view.count() {
            let head = view.head(i);
            if i == 0 {
                key = key_of(&head);
            }
            if head.kind == ItemKind::Indirect {
                pointers = pointers.saturating_add(pointers_in(view.body(i)));
            }
        }
        Some(Leaf { key, pointers })
    }
}

/// A key as a number.
fn key_of(head: &ItemHead) -> u128 {
    u128::from(head.dir) << 96 | u128::from(head.object) << 64 | u128::from(head.offset)
}

/// How many blocks a body points to. A hole has the number 0.
fn pointers_in(body: &[u8]) -> u64 {
    let mut count = 0_u64;
    for i in 0..body.len() / 4 {
        if u32_at(body, 4 * i) != 0 {
            count = count.saturating_add(1);
        }
    }
    count
}
