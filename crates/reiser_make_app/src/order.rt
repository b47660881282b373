ghost use Rattle.std.specs.Prelude.{◌≤◌, ◌^◌};

/// The volume that the words of a command line order.
#[derive(Clone, Copy, Debug)]
pub struct Order<'a> {
    /// The sample's number.
    pub number: u32,
    /// How many blocks the volume has.
    pub blocks: u64,
    /// Whether its items have version 0, as format 3.5 has them.
    pub old: bool,
    /// The path of the file or the device that it is made on.
    pub path: &'a str,
    ghost few: { number ≤ 4000 },
    ghost most: { blocks ≤ 2 ^ 29 },
}
