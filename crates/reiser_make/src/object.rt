ghost use Rattle.std.specs.Prelude.{◌≡◌, ◌<◌, ◌≤◌, ◌^◌, ◌+◌};
ghost use Rattle.reiser_make.specs.Shape.{root_id, above_root, directory_id, file_id, directory_count, names_in, object_count, named_by, name_count};

use crate::sample_entry::is_further_name;

/// The most names that a sample has.
pub const MOST: u32 = 4000;

/// What the keys of an object begin with: the number of the directory that it was made in, and its own.
#[derive(Clone, Copy, Debug, PartialEq, Eq)]
pub struct ObjectId {
    pub dir: u32,
    pub object: u32,
}

impl ObjectId {
    /// The root directory.
    pub fn root() -> ObjectId
        ensures { result ≡ root_id }
    {
        ObjectId { dir: 1, object: 2 }
    }

    /// What `..` of the root names.
    pub fn above_root() -> ObjectId
        ensures { result ≡ above_root }
    {
        ObjectId { dir: 0, object: 1 }
    }

    /// Directory `k`.
    pub fn directory(k: u32) -> ObjectId
        requires { k < 4001 }
        ensures { result ≡ directory_id k }
    {
        ObjectId {
            dir: 2,
            object: 3 + k,
        }
    }

    /// The object of name `i` in the sample of a number.
    pub fn file(number: u32, i: u32) -> ObjectId
        requires number { number ≤ 4000 }
        requires name { i < 4001 }
        ensures { result ≡ file_id number i }
    {
        ObjectId {
            dir: 3 + i / 100,
            object: 3 + directory_count(number) + i,
        }
    }
}

/// How many directories hold so many names: each has a hundred, and the last one the rest.
pub fn directory_count(number: u32) -> u32
    ensures { result ≡ directory_count number }
{
    number.div_ceil(100)
}

/// How many names directory `k` has.
pub fn names_in(number: u32, k: u32) -> u32
    requires { k < 4001 }
    ensures { result ≡ names_in number k }
{
    number.saturating_sub(100 * k).min(100)
}

/// The root, the directories and the names.
pub fn object_count(number: u32) -> u32
    requires { number ≤ 4000 }
    ensures { result ≡ object_count number }
{
    1 + directory_count(number) + number
}

/// The name whose object name `i` names.
pub fn named_by(i: u32) -> u32
    ensures { result ≡ named_by i }
{
    if is_further_name(i) { i - 1 } else { i }
}

/// How many names the object of name `i` has.
pub fn name_count(number: u32, i: u32) -> u32
    requires { i < 4001 }
    ensures { result ≡ name_count number i }
{
    if i % 10 == 8 && i + 2 <= number { 2 } else { 1 }
}
