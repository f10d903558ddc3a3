//! The octets of a capture that no symbol has, each written once.

/// What a capture begins with: `T1SC`.
pub const MAGIC: [u8; 4] = [b'T', b'1', b'S', b'C'];
/// The only version of the format.
pub const VERSION: u8 = 1;
/// Begins a gap.
pub const GAP: u8 = 0x20;
/// Ends a capture.
pub const END: u8 = 0x21;
/// Ends the symbols of a torn burst.
pub const TORN: u8 = 0x22;

/// The most octets that a capture may have.
pub const LIMIT: u64 = 1 << 30;
