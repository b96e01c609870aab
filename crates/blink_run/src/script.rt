// The answers to a script.
ghost use Rattle.std.specs.Prelude.{◌≡◌, ◌≢◌, ◌≤◌, List, length, is_some};
ghost use Rattle.blink_base.specs.declared.limits.TheConstants.{LONGEST_INPUT};
ghost use Rattle.star_engine.specs.State.{Files};
ghost use Rattle.star_engine.specs.Soundness.{AreLimits};
ghost use Rattle.star_engine.specs.Step.{Outcome};
ghost use Rattle.blink_run.specs.Script.{ScriptNeverAsks, ScriptRuns};
ghost use Rattle.blink_run.specs.PiecesRun.{end_of};
ghost use Rattle.blink_run.specs.Program.{to_run, told_script};
ghost use Rattle.blink_run.specs.Ends.{AreFiles, AreKnown, Gives, IsAsked, stream_view};

mod piece_text;
mod pieces;

use crate::Status;
use crate::output::Stop;
use crate::script::pieces::answer_pieces;
use blink_base::Limits;
use blink_edge::{Sink, Store};
use star_engine::Engine;
use star_lex::pieces;
use star_sql::one_spelling;
use std::alloc::{AllocError, Global};
use word_pool::{Ledger, Steps};

// The status of a script, by how the run of its pieces ended.
fn end_of(answered: Result<bool, Stop>) -> Status
    ensures { result ≡ end_of answered }
{
    match answered {
        Ok(true) => Status::Refused,
        Ok(false) => Status::Done,
        Err(Stop::Memory) => Status::Memory,
        Err(Stop::Sink) => Status::WriteFault,
        Err(Stop::Store) => Status::StoreFault,
    }
}

// Answers a script, statement by statement, from no tables.
pub(crate) fn answer_script<M: Ledger, W: Sink, S: Store>(
    alloc: Global,
    limits: Limits,
    script: &[u8],
    output: &mut W,
    store: &mut S,
    decodes: &mut Steps<M>,
) -> Status
    requires short { length script.now ≤ LONGEST_INPUT }
    requires limits { AreLimits limits }
    ensures ends { (files : Files) → AreFiles (S.files store.old) files → Gives (to_run limits) (is_some (S.files store.old)) files script.now
        (stream_view W.given W.faults output.old) (stream_view W.given W.faults output.new) result }
    ensures later { W.faults output.old ≤ W.faults output.new }
    ensures sure { (files : Files) (outcomes : List Outcome) → AreKnown (to_run limits) (S.files store.old) files
        → ScriptRuns limits (is_some (S.files store.old)) files script.now outcomes
        → length (told_script outcomes).printed ≤ W.sure_room output.old → W.faults output.new ≡ W.faults output.old }
    ensures quiet { result ≢ Status.WriteFault → W.faults output.new ≡ W.faults output.old }
    ensures store { IsAsked S.files S.faults S.never_fails (result ≡ Status.StoreFault) store.old store.new }
    ensures unasked { (files : Files) → AreFiles (S.files store.old) files → ScriptNeverAsks limits (is_some (S.files store.old)) files script.now → store.new ≡ store.old }
{
    one_spelling();
    let places = match pieces(alloc, script) {
        Ok(places) => places,
        Err(AllocError) => return Status::Memory,
    };
    let mut engine: Engine<M> = Engine::new(alloc, limits);
    let answered = answer_pieces(
        alloc,
        &mut engine,
        store,
        script,
        places.as_slice(),
        output,
        decodes,
    );
    end_of(answered)
}
