// The demonstration.
ghost use Rattle.std.specs.Prelude.{◌≡◌, ◌≢◌, ◌≤◌, ℕ, Bool, true, List, length};
ghost use Rattle.blink_gen.specs.Demo.{demo_script};
ghost use Rattle.blink_gen.specs.declared.limits.TheConstants.{MOST_DEMO_ROWS, MOST_SEED};
ghost use Rattle.star_engine.specs.State.{Files};
ghost use Rattle.star_engine.specs.Step.{Outcome};
ghost use Rattle.blink_run.specs.Options.{standard_limits};
ghost use Rattle.blink_run.specs.Script.{ScriptRuns};
ghost use Rattle.blink_run.specs.Program.{demo_store, to_demo, told_script};
ghost use Rattle.blink_run.specs.Ends.{Gives, stream_view};

use crate::Status;
use crate::script::answer_script;
use blink_base::{Limits, MOST_BLOCKS};
use blink_edge::Sink;
use blink_gen::{files, script};
use blink_lists::MOST_ROWS;
use std::alloc::{AllocError, Global};
use word_pool::{Ledger, Steps};

// Answers the script of the demonstration, over its files on a shelf of its own.
pub(crate) fn answer_demo<M: Ledger, W: Sink>(
    alloc: Global,
    seed: u32,
    rows: u32,
    output: &mut W,
    decodes: &mut Steps<M>,
) -> Status
    requires seed { seed ≤ MOST_SEED }
    requires rows { rows ≤ MOST_DEMO_ROWS }
    ensures ends { (stay : Bool) (files : Files) (input : List ℕ) → Gives (to_demo seed rows) stay files input
        (stream_view W.given W.faults output.old) (stream_view W.given W.faults output.new) result }
    ensures quiet { result ≢ Status.WriteFault → W.faults output.new ≡ W.faults output.old }
    ensures later { W.faults output.old ≤ W.faults output.new }
    ensures sure { (outcomes : List Outcome) → ScriptRuns standard_limits true (demo_store seed rows) demo_script outcomes
        → length (told_script outcomes).printed ≤ W.sure_room output.old → W.faults output.new ≡ W.faults output.old }
{
    let mut shelf = match files(alloc, seed, rows) {
        Ok(shelf) => shelf,
        Err(AllocError) => return Status::Memory,
    };
    let limits = Limits {
        rows: MOST_ROWS,
        blocks: MOST_BLOCKS,
    };
    answer_script(
        alloc,
        limits,
        script().as_bytes(),
        output,
        &mut shelf,
        decodes,
    )
}
