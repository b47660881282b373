ghost use Rattle.rows_laws.specs.Laws.{AcceptedVolumesHaveRows, ReadableVolumesHaveRows};

/// An accepted ReiserFS volume has rows.
pub fn accepted_volumes_have_rows()
    ensures { AcceptedVolumesHaveRows }
{}

/// A Btrfs volume that has no log tree and whose file tree is readable has rows.
pub fn readable_volumes_have_rows()
    ensures { ReadableVolumesHaveRows }
{}
