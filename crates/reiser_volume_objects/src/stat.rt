use reiser_items::{BlockNo, StatData};

/// The stat data of an object, and where it stands.
#[derive(Clone, Copy, Debug, PartialEq, Eq)]
pub struct ObjectStat {
    /// The block of the leaf that holds it.
    pub leaf: BlockNo,
    /// Whether it is in the form of ReiserFS 3.5 (version 0).
    pub old_form: bool,
    /// Its fields.
    pub fields: StatData,
}
