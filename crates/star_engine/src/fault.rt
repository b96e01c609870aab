// Why a call of the engine is refused.
ghost use Rattle.std.specs.Prelude.{◌≡◌};

use blink_base::Refusal;
use blink_loader::LoadFault;
use cell_layout::LayoutError;
use star_bind::BindFault;
use std::alloc::AllocError;
use thiserror::Error;

/// Why a call of the engine changes nothing. Source: this project's own.
#[derive(Debug, Drop, Error)]
pub enum EngineError {
    /// The statement is refused.
    #[error("the statement is refused")]
    Refused(Refusal),
    /// There was not enough memory.
    #[error("not enough memory")]
    Memory,
}

impl From<AllocError> for EngineError {
    ghost use Rattle.star_engine.specs.declared.fault.EngineError.TheVariants.{Memory};

    ghost from_gives = { λ _ e. e ≡ Memory };

    fn from(_error: AllocError) -> EngineError {
        EngineError::Memory
    }
}

impl From<LayoutError> for EngineError {
    ghost use Rattle.star_engine.specs.Faults.{layout_error};

    ghost from_gives = { λ why e. e ≡ layout_error why };

    fn from(error: LayoutError) -> EngineError {
        match error {
            LayoutError::DuplicateKey { at } => EngineError::Refused(Refusal::DuplicateKey { at }),
            LayoutError::Rows => EngineError::Refused(Refusal::TooManyRows),
            LayoutError::Memory => EngineError::Memory,
        }
    }
}

impl From<LoadFault> for EngineError {
    ghost use Rattle.star_engine.specs.Faults.{load_error};

    ghost from_gives = { λ why e. e ≡ load_error why };

    fn from(fault: LoadFault) -> EngineError {
        match fault {
            LoadFault::Header => EngineError::Refused(Refusal::BadHeader),
            LoadFault::Arity { at } => EngineError::Refused(Refusal::Arity { at }),
            LoadFault::BadValue { at, field, .. } => {
                EngineError::Refused(Refusal::BadValue { at, field })
            }
            LoadFault::Memory => EngineError::Memory,
        }
    }
}

impl From<BindFault> for EngineError {
    ghost use Rattle.star_engine.specs.Faults.{bind_error};

    ghost from_gives = { λ why e. e ≡ bind_error why };

    fn from(fault: BindFault) -> EngineError {
        match fault {
            BindFault::UnknownTable(name) => EngineError::Refused(Refusal::UnknownTable(name)),
            BindFault::UnknownColumn(name) => EngineError::Refused(Refusal::UnknownColumn(name)),
            BindFault::Ambiguous(name) => EngineError::Refused(Refusal::AmbiguousColumn(name)),
            BindFault::WrongKind => EngineError::Refused(Refusal::WrongKind),
            BindFault::NotStar => EngineError::Refused(Refusal::NotStar),
            BindFault::NotGrouped => EngineError::Refused(Refusal::NotGrouped),
            BindFault::Wide => EngineError::Refused(Refusal::TooManyConjunctions),
            BindFault::Memory => EngineError::Memory,
        }
    }
}
