ghost use Rattle.std.specs.Prelude.{◌≡◌, ◌<◌, ◌≤◌, ◌+◌, ◌%◌, length};
ghost use Rattle.reiser_make.specs.Names.{directory_name, file_name, r5, r5_step, entry_offset};

/// The name of directory `k`: `d` and four digits.
#[tactic(auto, unfolding(crate::specs::Names::directory_name))]
pub fn directory_name(k: u32) -> [u8; 5]
    requires { k < 10000 }
    ensures name { result ≡ directory_name k }
    ensures length { length result ≡ 5 }
{
    [
        b'd',
        digit(k / 1000),
        digit(k / 100),
        digit(k / 10),
        digit(k),
    ]
}

/// Name `i` of the files: `f` and five digits.
#[tactic(auto, unfolding(crate::specs::Names::file_name))]
pub fn file_name(i: u32) -> [u8; 6]
    requires { i < 100000 }
    ensures name { result ≡ file_name i }
    ensures length { length result ≡ 6 }
{
    [
        b'f',
        digit(i / 10000),
        digit(i / 1000),
        digit(i / 100),
        digit(i / 10),
        digit(i),
    ]
}

/// The last decimal digit of a number.
fn digit(x: u32) -> u8
    ensures { result ≡ 48 + x % 10 }
{
    b'0' + (x % 10) as u8
}

/// The hash r5 of a name whose bytes are below 128.
#[tactic(auto, unfolding(crate::specs::Names::r5))]
fn r5(name: &[u8]) -> u32
    ensures { result ≡ r5 name.now }
{
    let mut hash = 0;
    for &byte in name {
        hash = r5_step(hash, byte);
    }
    hash
}

/// The hash of a name with one byte more.
fn r5_step(hash: u32, byte: u8) -> u32
    ensures { result ≡ r5_step hash byte }
{
    let byte = byte as u64;
    ((hash as u64 + byte * 16 + byte / 16) * 11 % (1 << 32)) as u32
}

/// Where a name stands in its directory, if no other one there has its hash.
#[tactic(auto, unfolding(crate::specs::Names::entry_offset))]
pub fn entry_offset(name: &[u8]) -> u32
    ensures offset { result ≡ entry_offset name.now }
{
    (r5(name) % (1 << 31) / 128 * 128).max(128)
}
