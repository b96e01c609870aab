// Why no room is made.
ghost use Rattle.std.specs.Prelude.{◌≡◌};

use std::alloc::AllocError;
use thiserror::Error;

/// Why there is no room for further blocks. Source: this project's own.
#[derive(Clone, Copy, Debug, PartialEq, Eq, Error)]
pub enum PoolError {
    /// There would be more live blocks than the limit.
    #[error("the limit of blocks is reached")]
    Full,
    /// There was not enough memory.
    #[error("not enough memory")]
    Memory,
}

impl From<AllocError> for PoolError {
    ghost use Rattle.word_pool.specs.declared.fault.PoolError.TheVariants.{Memory};

    ghost from_gives = { λ _ e. e ≡ Memory };

    fn from(_error: AllocError) -> PoolError {
        PoolError::Memory
    }
}
