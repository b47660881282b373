ghost use Rattle.std.specs.Prelude.{◌≡◌, ◌≤◌, ◌*◌, length};
ghost use Rattle.btr_keys.specs.Key.{key_layout};
ghost use Rattle.btr_node.specs.Order.{ascends};
ghost use Rattle.btr_node.specs.Records.{records_in};

use btr_keys::Key;

/// Whether the keys that `count` entries of this width in bytes begin with ascend, each one above the one before.
pub fn keys_ascend(entries: &[u8], count: usize, width: usize) -> bool
    requires wide { 17 ≤ width }
    requires there { width * count ≤ length entries.now }
    ensures { result ≡ ascends (records_in width key_layout count entries.now) }
{
    for i in 1..count {
        let before = Key::at(entries, width * (i - 1));
        let next = Key::at(entries, width * i);
        if !before.is_before(&next) {
            return false;
        }
    }
    true
}
