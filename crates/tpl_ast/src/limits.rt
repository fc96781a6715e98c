//! The limits of the language and of the file.

/// Bytes of a template's text.
pub const MAX_TEXT: usize = 65_536;
/// Bytes of a name.
pub const MAX_NAME: usize = 32;
/// Regions of RAM.
pub const MAX_REGIONS: usize = 8;
/// Bytes of all regions together.
pub const MAX_MEMORY: u64 = 0x0400_0000;
/// The address at which the last region may end.
pub const LAST_END: u32 = 0xffff_f000;
/// Frames for code and data.
pub const MAX_POOL: usize = 32;
/// Frames for page tables.
pub const MAX_TABLES: usize = 8;
/// Flag bytes of page table entries.
pub const MAX_FLAGS: usize = 8;
/// Named sets.
pub const MAX_SETS: usize = 64;
/// Elements of a list in braces.
pub const MAX_ELEMENTS: usize = 64;
/// Names, labels among them.
pub const MAX_NAMES: usize = 256;
/// Harts.
pub const MAX_HARTS: usize = 4;
/// Records of all harts together.
pub const MAX_RECORDS: usize = 8_192;
/// Blocks in one another inside a body.
pub const MAX_BLOCKS: usize = 16;
/// How often a body is repeated.
pub const MAX_TIMES: u32 = 8_192;
/// Alternatives of a choice.
pub const MAX_WAYS: usize = 64;
/// The weight of an alternative.
pub const MAX_WEIGHT: u32 = 65_535;
/// Atoms of a leaf.
pub const MAX_ATOMS: usize = 32;
/// Bytes of a file.
pub const MAX_FILE: usize = 8_388_608;
/// Words that a file gives.
pub const MAX_WORDS: usize = 60_000;
/// Choices that a file tells.
pub const MAX_CHOICES: usize = 8_192;
/// Dropped biases that a file tells.
pub const MAX_DROPPED: usize = 262_144;
/// Accesses of a record.
pub const MAX_ACCESSES: usize = 8;
/// Steps of a hart that a dropped bias may be of.
pub const MAX_STEPS: u32 = 8_192;
/// Bytes for which a sink needs room: every text that the program writes has fewer.
pub const TEXT_ROOM: usize = 16_777_216;
