// The count of a column between two bounds.
ghost use Rattle.std.specs.Prelude.{◌≡◌, ◌≢◌, ◌≤◌, Bool, length, true, false, IfOk};
ghost use Rattle.std.specs.Str.{str_to_ascii_lowercase};
ghost use Rattle.blink_base.specs.declared.refusal.Refusal.TheVariants.{UnknownColumn};
ghost use Rattle.blink_base.specs.declared.limits.TheConstants.{LONGEST_INPUT};
ghost use Rattle.report_text.specs.Texts.{refusal_bytes};
ghost use Rattle.star_engine.specs.State.{Files};
ghost use Rattle.blink_run.specs.Program.{count_told};
ghost use Rattle.blink_run.specs.Ends.{Gives, stream_view};
ghost use Rattle.blink_run.specs.Request.{asked_of};
ghost use Rattle.blink_run.specs.declared.arguments.Request.TheVariants.{Count};

use crate::Status;
use crate::arguments::Bounds;
use crate::output::{Output, count_line};
use blink_base::{List, Refusal, Word};
use blink_edge::{Failed, Sink, write_all};
use blink_loader::{RangeFault, range_count};
use report_text::refusal_text;
use std::alloc::{AllocError, Global};

// The line for a column that the header lacks. Its name is printed with small letters.
fn unknown_column_line(alloc: Global, column: &str) -> Result<List<u8>, AllocError>
    ensures { IfOk result (λ text. text ≡ refusal_bytes (UnknownColumn (str_to_ascii_lowercase column.now))) }
{
    let name = column.to_ascii_lowercase(alloc)?;
    let refusal = Refusal::UnknownColumn(Word::from_str(alloc, name.as_str())?);
    refusal_text(alloc, &refusal)
}

// What the count of a column between two bounds tells of an input.
#[tactic(auto, using(crate::proofs::CountOutputLemmas::told_count_by_answer))]
fn tell_count(alloc: Global, bounds: Bounds<'_>, input: &[u8]) -> Result<Output, AllocError>
    requires { length input.now ≤ LONGEST_INPUT }
    ensures line { IfOk result (λ told. told.line ≡ (count_told bounds.entry.column.now bounds.entry.low bounds.entry.high input.now).printed) }
    ensures refused { IfOk result (λ told. told.refused ≡ (count_told bounds.entry.column.now bounds.entry.low bounds.entry.high input.now).refused) }
{
    match range_count(alloc, input, bounds.column, bounds.low, bounds.high) {
        Ok(count) => Ok(Output {
            line: count_line(alloc, count)?,
            refused: false,
        }),
        Err(RangeFault::UnknownColumn) => Ok(Output {
            line: unknown_column_line(alloc, bounds.column)?,
            refused: true,
        }),
        Err(RangeFault::Arity { at }) => Ok(Output {
            line: refusal_text(alloc, &Refusal::Arity { at })?,
            refused: true,
        }),
        Err(RangeFault::BadValue { at, field }) => Ok(Output {
            line: refusal_text(alloc, &Refusal::BadValue { at, field })?,
            refused: true,
        }),
        Err(RangeFault::Memory) => Err(AllocError),
    }
}

// Answers a count.
pub(crate) fn answer_count<W: Sink>(
    alloc: Global,
    bounds: Bounds<'_>,
    input: &[u8],
    output: &mut W,
) -> Status
    requires { length input.now ≤ LONGEST_INPUT }
    ensures ends { (stay : Bool) (files : Files) → Gives (asked_of (Count bounds.entry)) stay files input.now
        (stream_view W.given W.faults output.old) (stream_view W.given W.faults output.new) result }
    ensures quiet { result ≢ Status.WriteFault → W.faults output.new ≡ W.faults output.old }
    ensures later { W.faults output.old ≤ W.faults output.new }
    ensures sure { length (count_told bounds.entry.column.now bounds.entry.low bounds.entry.high input.now).printed ≤ W.sure_room output.old
        → W.faults output.new ≡ W.faults output.old }
{
    let told = match tell_count(alloc, bounds, input) {
        Ok(told) => told,
        Err(AllocError) => return Status::Memory,
    };
    match write_all(output, told.line.as_slice()) {
        Err(Failed) => Status::WriteFault,
        Ok(()) if told.refused => Status::Refused,
        Ok(()) => Status::Done,
    }
}
