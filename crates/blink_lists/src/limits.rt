// The limits that the crates of the layout cite, one home each; those of texts and tables stand in `blink_base`.

/// How many rows a table may have. Source: this project's own.
pub const MOST_ROWS: u64 = 8_388_608;

/// How many columns a table may have. Source: this project's own.
pub const MOST_COLUMNS: usize = 32;

/// How many classes a column may have. Source: this project's own.
pub const MOST_CLASSES: usize = 4;

/// How many columns of a table may have several classes. Source: this project's own.
pub const MOST_DIVIDED: usize = 3;

/// The greatest width of a class of codes, in bits. Source: this project's own.
pub const MOST_WIDTH: u8 = 23;

/// The bits of a word. Source: after Johnson et al., VLDB 2008 (packed fields).
pub const WORD_BITS: u32 = 64;

/// How many bits the fields of a lane may have in all. Source: this project's own.
pub const MOST_LANE_BITS: u32 = 32;

/// How many rows a page has. Source: this project's own.
pub const PAGE_ROWS: u64 = 1024;
