// What a statement prints, and why a script stops.
ghost use Rattle.std.specs.Prelude.{◌≡◌, false, true, IfOk};
ghost use Rattle.report_text.specs.Texts.{Bytes, number_bytes, refusal_bytes};
ghost use Rattle.blink_run.specs.StatementOutput.{IsLine, IsRefusal, IsAdditionLine};

use blink_base::{List, Refusal};
use itoa::Buffer;
use report_text::{added_text, refusal_text};
use star_engine::EngineError;
use std::alloc::{AllocError, Global};

// A printed line, and whether it refuses.
#[derive(Drop)]
pub(crate) struct Output {
    pub(crate) line: List<u8>,
    pub(crate) refused: bool,
}

// Why the run of a script stops before its end.
#[derive(Clone, Copy)]
pub(crate) enum Stop {
    // There was not enough memory.
    Memory,
    // The sink failed.
    Sink,
    // The store failed.
    Store,
}

impl From<AllocError> for Stop {
    ghost use Rattle.blink_run.specs.declared.output.Stop.TheVariants.{Memory};

    ghost from_gives = { λ _ e. e ≡ Memory };

    fn from(_error: AllocError) -> Stop {
        Stop::Memory
    }
}

/// The line for arguments in no stated form.
pub(crate) const USAGE: &str =
    "usage: blink run [--rows N] [--blocks N] | blink range COLUMN LOW HIGH | blink demo SEED ROWS\n";

// The line of a count.
pub(crate) fn count_line(alloc: Global, count: u64) -> Result<List<u8>, AllocError>
    ensures { IfOk result (λ text. text ≡ number_bytes count) }
{
    let mut buffer = Buffer::new();
    let mut text = Vec::from_slice(alloc, buffer.format(count).as_bytes())?;
    text.push(b'\n')?;
    Ok(List::from_vec(text))
}

// The line of a statement that is not refused.
pub(crate) fn done(line: Result<List<u8>, AllocError>) -> Result<Output, Stop>
    ensures { (bytes : Bytes) → IfOk line (λ l. l ≡ bytes) → IsLine bytes false result }
{
    match line {
        Ok(line) => Ok(Output {
            line,
            refused: false,
        }),
        Err(AllocError) => Err(Stop::Memory),
    }
}

// The line of a refusal.
pub(crate) fn refused(alloc: Global, why: &Refusal) -> Result<Output, Stop>
    ensures { IsLine (refusal_bytes why.now) true result }
{
    match refusal_text(alloc, why) {
        Ok(line) => Ok(Output {
            line,
            refused: true,
        }),
        Err(AllocError) => Err(Stop::Memory),
    }
}

// The line of a refusal of the engine.
pub(crate) fn refused_by(alloc: Global, why: &EngineError) -> Result<Output, Stop>
    ensures { IsRefusal why.now result }
{
    match why {
        EngineError::Refused(why) => refused(alloc, why),
        EngineError::Memory => Err(Stop::Memory),
    }
}

// The line of rows that were added, or of the refusal.
pub(crate) fn addition(alloc: Global, added: &Result<u64, EngineError>) -> Result<Output, Stop>
    ensures { IsAdditionLine added.now result }
{
    match added {
        Ok(count) => done(added_text(alloc, *count)),
        Err(why) => refused_by(alloc, why),
    }
}
