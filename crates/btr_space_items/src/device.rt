ghost use Rattle.std.specs.Prelude.{◌≡◌, ◌+◌, ◌≤◌, length};
ghost use Rattle.btr_space_items.specs.Device.{device_layout, device_at, device_of, device_bytes};

use btr_keys::btrfs_format::size::DEV_ITEM_SIZE;
use btr_keys::{Field, array_at, put_fields, u32_at, u64_at};

/// The body of a device, key (1, 216, device): 98 bytes, as the Btrfs on-disk format documentation has it.
#[derive(Clone, Copy, Debug, PartialEq, Eq)]
pub struct Device {
    /// The device's number.
    pub devid: u64,
    /// The length of the device in bytes.
    pub total_bytes: u64,
    /// Bytes of it that belong to chunks.
    pub bytes_used: u64,
    /// The alignment of its reads and writes in bytes.
    pub io_align: u32,
    /// Their width in bytes.
    pub io_width: u32,
    /// Its sector size in bytes.
    pub sector_size: u32,
    /// What kind of device it is; 0.
    pub kind: u64,
    /// The transaction that changed it last.
    pub generation: u64,
    /// Where chunks may begin on it, in bytes.
    pub start_offset: u64,
    /// Its group; 0.
    pub dev_group: u32,
    /// How fast it seeks; 0 for unknown.
    pub seek_speed: u8,
    /// How fast it reads; 0 for unknown.
    pub bandwidth: u8,
    /// The device's identifier.
    pub uuid: [u8; 16],
    /// The file system's identifier.
    pub fsid: [u8; 16],
}

impl Device {
    /// The bytes of a value.
    pub const SIZE: usize = DEV_ITEM_SIZE;

    /// The value in the 98 bytes from byte `at` on.
    pub fn at(bytes: &[u8], at: usize) -> Device
        requires { at + 98 ≤ length bytes.now }
        ensures { result ≡ device_at bytes.now at }
    {
        Device::first(&bytes[at..])
    }

    fn first(bytes: &[u8]) -> Device
        requires { 98 ≤ length bytes.now }
        ensures { result ≡ device_layout.read bytes.now }
    {
        Device {
            devid: u64_at(bytes, 0),
            total_bytes: u64_at(bytes, 8),
            bytes_used: u64_at(bytes, 16),
            io_align: u32_at(bytes, 24),
            io_width: u32_at(bytes, 28),
            sector_size: u32_at(bytes, 32),
            kind: u64_at(bytes, 36),
            generation: u64_at(bytes, 44),
            start_offset: u64_at(bytes, 52),
            dev_group: u32_at(bytes, 60),
            seek_speed: bytes[64],
            bandwidth: bytes[65],
            uuid: array_at(bytes, 66),
            fsid: array_at(bytes, 82),
        }
    }

    /// The value that is the whole body; None exactly where the body has another length than 98 bytes.
    pub fn read(body: &[u8]) -> Option<Device>
        ensures { result ≡ device_of body.now }
    {
        if body.len() == Device::SIZE {
            Some(Device::first(body))
        } else {
            None
        }
    }

    /// Writes the value into the 98 bytes of a slice.
    #[tactic(auto, unfolding(crate::specs::Device::device_layout))]
    pub fn write(&self, into: &mut [u8])
        requires { length into.old ≡ 98 }
        ensures { into.new ≡ device_bytes self.now }
    {
        put_fields(
            into,
            &[
                Field::U64(self.devid),
                Field::U64(self.total_bytes),
                Field::U64(self.bytes_used),
                Field::U32(self.io_align),
                Field::U32(self.io_width),
                Field::U32(self.sector_size),
                Field::U64(self.kind),
                Field::U64(self.generation),
                Field::U64(self.start_offset),
                Field::U32(self.dev_group),
                Field::U8(self.seek_speed),
                Field::U8(self.bandwidth),
                Field::Bytes(&self.uuid),
                Field::Bytes(&self.fsid),
            ],
        );
    }

    /// The 98 bytes of the value.
    pub fn to_bytes(&self) -> [u8; 98]
        ensures { result ≡ device_bytes self.now }
    {
        let mut bytes = [0; 98];
        self.write(&mut bytes);
        bytes
    }
}
