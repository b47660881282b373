// Tables for the bytes of a word of 64 bits, which are shifted out together.
mod bits_16;
mod bits_24;
mod bits_32;
mod bits_40;
mod bits_48;
mod bits_56;
mod bits_64;

pub use bits_16::after_16;
pub use bits_24::after_24;
pub use bits_32::after_32;
pub use bits_40::after_40;
pub use bits_48::after_48;
pub use bits_56::after_56;
pub use bits_64::after_64;
