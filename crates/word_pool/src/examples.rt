//! A worked region, as facts that compute.

ghost use Rattle.word_pool.specs.Examples.{BlocksAreFound};

/// Three blocks, of which two are live.
pub fn blocks_are_found()
    ensures { BlocksAreFound }
{}
