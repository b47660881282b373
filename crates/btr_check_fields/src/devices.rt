// The device item of the chunk tree.
ghost use Rattle.std.specs.Prelude.{◌≡◌, ◌++◌, ◌∷◌, [], List};
ghost use Rattle.btr_check_rules.specs.btr_reader.btr_node.Leaf.{Item};
ghost use Rattle.btr_check_fields.specs.Devices.{FindsDevices, first_device, is_device_body, is_device_item, is_device_key, same_device};

use btr_check_rules::btr_reader::btr_reader_walk::Key;
use btr_check_rules::btr_reader::btr_space_items::Device;
use btr_check_rules::btr_reader::btr_space_items::btrfs_format::key::DEV_ITEM;
use btr_check_rules::btr_reader::btr_space_items::btrfs_format::object::DEV_ITEMS_OBJECTID;
use btr_check_rules::btr_reader::btr_super::Super;

/// The device items that were met: none, the superblock's alone, or others.
#[derive(Clone, Copy, Debug, PartialEq, Eq)]
pub enum DevicesFound {
    None,
    One,
    Wrong,
}

/// Whether two device items have the same fields.
fn same_device(a: &Device, b: &Device) -> bool
    ensures { result ≡ same_device a.now b.now }
{
    a.devid == b.devid
        && a.total_bytes == b.total_bytes
        && a.bytes_used == b.bytes_used
        && a.io_align == b.io_align
        && a.io_width == b.io_width
        && a.sector_size == b.sector_size
        && a.kind == b.kind
        && a.generation == b.generation
        && a.start_offset == b.start_offset
        && a.dev_group == b.dev_group
        && a.seek_speed == b.seek_speed
        && a.bandwidth == b.bandwidth
        && a.uuid == b.uuid
        && a.fsid == b.fsid
}

/// Whether a key is that of the device.
fn is_device_key(sup: &Super, key: &Key) -> bool
    ensures { result ≡ is_device_key sup.now key.now }
{
    key.objectid == DEV_ITEMS_OBJECTID && key.kind == DEV_ITEM && key.offset == sup.dev_item.devid
}

/// Whether what was read of a body has the fields of the superblock's device item.
fn is_device_body(sup: &Super, device: &Option<Device>) -> bool
    ensures { result ≡ is_device_body sup.now device.now }
{
    match device {
        Some(device) => same_device(device, &sup.dev_item),
        None => false,
    }
}

/// Whether an item is the device's, with the fields of the superblock's.
fn is_device_item(sup: &Super, key: &Key, body: &[u8]) -> bool
    ensures { result ≡ is_device_item sup.now key.now body.now }
{
    is_device_key(sup, key) && is_device_body(sup, &Device::read(body))
}

/// What was met with one item, by whether that is the superblock's.
fn first_device(right: bool) -> DevicesFound
    ensures { result ≡ first_device right }
{
    if right {
        DevicesFound::One
    } else {
        DevicesFound::Wrong
    }
}

impl DevicesFound {
    /// What was met with one device item more.
    pub fn with(self, sup: &Super, key: &Key, body: &[u8]) -> DevicesFound
        ensures { (items : List Item) → FindsDevices sup.now items self → FindsDevices sup.now (items ++ (key.now, body.now) ∷ []) result }
    {
        match self {
            DevicesFound::None => first_device(is_device_item(sup, key, body)),
            DevicesFound::One => DevicesFound::Wrong,
            DevicesFound::Wrong => DevicesFound::Wrong,
        }
    }
}
