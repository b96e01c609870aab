// How many blocks there may be.

/// How many blocks of a pool may be live at once: 2,147,483,648 bytes of words. Source: this project's own.
pub const MOST_BLOCKS: u64 = 2_097_152;
