// How large a table of slots may be.

/// How many slots a cell's groups may have; where more tuples may come, a hash table finds the groups. Source: this project's
/// own.
pub const MOST_SLOTS: u64 = 65_536;
