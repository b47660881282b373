/// A thing of some number, under a number.
#[derive(Clone, Copy, Debug)]
pub struct Spot {
    /// What it stands under, as the place of an object or an inode.
    pub of: u64,
    /// Its own number.
    pub number: usize,
}
