// The statements that add the rows of a file to a table.
ghost use Rattle.std.specs.Prelude.{◌≡◌, ◌≢◌, true, false, Some, IfOk, IfErr, is_some};
ghost use Rattle.star_engine.specs.State.{State, has_table};
ghost use Rattle.star_engine.specs.EngineRepr.{HasTables, IsEngineOf};
ghost use Rattle.star_engine.specs.Step.{fetched};
ghost use Rattle.report_text.specs.Texts.{refusal_bytes};
ghost use Rattle.blink_base.specs.declared.limits.TheConstants.{LONGEST_CSV};
ghost use Rattle.blink_run.specs.Ends.{AreFiles, IsAsked};
ghost use Rattle.blink_run.specs.StatementOutput.{IsLine, IsReplyFrom, IsFetched, IsStoreFault, StaysSound, bytes_in, loads};

use crate::output::{Output, Stop, addition, refused};
use blink_base::{LONGEST_CSV, Refusal, Word};
use blink_edge::{Found, Store, StoreError};
use star_engine::{Engine, Growth};
use std::alloc::Global;
use word_pool::{Ledger, Steps};

// The bytes of a file, where there are no more than a CSV file may have.
fn short_enough(bytes: Vec<u8>) -> Result<Vec<u8>, Refusal>
    ensures { bytes_in result ≡ fetched LONGEST_CSV (Some bytes.items) }
{
    if bytes.len() as u64 <= LONGEST_CSV {
        Ok(bytes)
    } else {
        Err(Refusal::FileTooLong)
    }
}

// The bytes of a CSV file, or why there are none.
fn fetch_csv<S: Store>(
    alloc: Global,
    store: &mut S,
    name: &str,
) -> Result<Result<Vec<u8>, Refusal>, Stop>
    ensures got { IfOk result (λ got. (state : State) → AreFiles (S.files store.old) state.files
        → IsFetched (S.files store.old) (is_some (S.files store.old)) state name.now got) }
    ensures stop { IfErr result (λ why. why ≢ Stop.Sink) }
    ensures store { IsAsked S.files S.faults S.never_fails (IsStoreFault result) store.old store.new }
{
    let mut bytes = Vec::new(alloc);
    match store.fetch(name, LONGEST_CSV, &mut bytes) {
        Ok(Found::Whole) => Ok(short_enough(bytes)),
        Ok(Found::Absent) => Ok(Err(Refusal::NoFile)),
        Ok(Found::Long) => Ok(Err(Refusal::FileTooLong)),
        Err(StoreError::Failed) => Err(Stop::Store),
        Err(StoreError::Memory) => Err(Stop::Memory),
    }
}

// The refusal of a name without a table.
fn unknown_table(alloc: Global, name: &Word) -> Result<Output, Stop>
    ensures { IsLine (refusal_bytes (Refusal.UnknownTable name.now)) true result }
{
    let why = Refusal::UnknownTable(name.copy(alloc)?);
    refused(alloc, &why)
}

// Answers LOAD, or else APPEND. The store is asked only where the table is there.
pub(crate) fn add_file<M: Ledger, S: Store>(
    alloc: Global,
    engine: &mut Engine<M>,
    store: &mut S,
    name: &Word,
    file: &Word,
    growth: Growth,
    decodes: &mut Steps<M>,
) -> Result<Output, Stop>
    requires { HasTables engine.old }
    ensures reply { (state : State) → IsEngineOf state.tables engine.old → AreFiles (S.files store.old) state.files
        → IsReplyFrom engine.old.limits (S.files store.old) (is_some (S.files store.old)) state (loads growth name.now file.now) result engine.new }
    ensures engine { StaysSound engine.old engine.new }
    ensures store { IsAsked S.files S.faults S.never_fails (IsStoreFault result) store.old store.new }
    ensures unasked { (state : State) → IsEngineOf state.tables engine.old → has_table state.tables name.now ≡ false → store.new ≡ store.old }
{
    if engine.find(name.as_str()).is_none() {
        return unknown_table(alloc, name);
    }
    match fetch_csv(alloc, store, file.as_str())? {
        Ok(bytes) => {
            let added = engine.add_text(alloc, name, bytes, growth, decodes);
            addition(alloc, &added)
        }
        Err(why) => refused(alloc, &why),
    }
}
