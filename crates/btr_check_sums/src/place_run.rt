// Addresses that lie one behind the other on the device.
ghost use Rattle.std.specs.Prelude.{◌<◌, ◌^◌};

/// Addresses that lie one behind the other on the device. All are in bytes.
#[derive(Clone, Copy, Debug)]
pub struct PlaceRun {
    /// The first address.
    pub first: u128,
    /// Where they end.
    pub end: u128,
    /// Where the first one lies on the device.
    pub place: u128,
    ghost fits: { (end < 2 ^ 66) × (place < 2 ^ 66) },
}
