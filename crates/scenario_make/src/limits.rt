//! The greatest size of a generated auction. Contracts and the command that makes one cite this constant.

/// The most stations of a generated auction.
pub const MOST_GENERATED: u32 = 4_096;
