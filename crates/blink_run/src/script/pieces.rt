// The pieces of a script, one behind the other.
ghost use Rattle.std.specs.Prelude.{◌≡◌, ◌≤◌, [], ◌∷◌, length, map, is_some, false, Ok, IfOk, IfErr, IsTrue, All};
ghost use Rattle.blink_base.specs.declared.limits.TheConstants.{LONGEST_INPUT};
ghost use Rattle.blink_base.specs.declared.limits.Limits.{Limits};
ghost use Rattle.star_sql.specs.WellFormed.{is_well_formed};
ghost use Rattle.star_sql.specs.declared.ast.Statement.{Statement as Stated};
ghost use Rattle.star_engine.specs.State.{State};
ghost use Rattle.star_engine.specs.Step.{piece_asks_store};
ghost use Rattle.star_engine.specs.EngineRepr.{HasTables, IsEngineOf};
ghost use Rattle.blink_run.specs.Ends.{AreFiles, IsAsked};
ghost use Rattle.blink_run.specs.Script.{NeverAsks};
ghost use Rattle.blink_run.specs.StatementOutput.{IsAsking, IsSaidFrom, IsStoreFault, IsPieceAnswer, StaysSound};
ghost use Rattle.star_sql.specs.Spelling.{HasFewTokens};
ghost use Rattle.blink_run.specs.PiecesRun.{AreAnswered, AreStopped, Stands, sink_view};
ghost use Rattle.blink_run.specs.PieceSpans.{IsWithin, text_at};

use crate::output::{Output, Stop, refused};
use crate::script::piece_text::{Said, said_by};
use crate::statements::answer_statement;
use blink_edge::{Failed, Sink, Store, write_all};
use star_engine::Engine;
use star_lex::Place;
use std::alloc::Global;
use word_pool::{Ledger, Steps};

// The line of what a piece says.
fn answer_said<M: Ledger, S: Store>(
    alloc: Global,
    engine: &mut Engine<M>,
    store: &mut S,
    said: &Said,
    decodes: &mut Steps<M>,
) -> Result<Output, Stop>
    requires sound { HasTables engine.old }
    requires formed { (s : Stated) → said.now ≡ Ok s → IsTrue (is_well_formed s) }
    requires few { (s : Stated) → said.now ≡ Ok s → HasFewTokens s }
    ensures reply { (state : State) → IsEngineOf state.tables engine.old → AreFiles (S.files store.old) state.files
        → IsSaidFrom engine.old.limits (S.files store.old) (is_some (S.files store.old)) state said.now result engine.new }
    ensures engine { StaysSound engine.old engine.new }
    ensures store { IsAsked S.files S.faults S.never_fails (IsStoreFault result) store.old store.new }
    ensures unasked { (state : State) → IsEngineOf state.tables engine.old → piece_asks_store state.tables said.now ≡ false → store.new ≡ store.old }
{
    match said {
        Ok(statement) => answer_statement(alloc, engine, store, statement, decodes),
        Err(why) => refused(alloc, why),
    }
}

// The line that a piece prints, where it isn't passed over.
fn answer_by<M: Ledger, S: Store>(
    alloc: Global,
    engine: &mut Engine<M>,
    store: &mut S,
    text: &[u8],
    decodes: &mut Steps<M>,
) -> Result<Option<Output>, Stop>
    requires short { length text.now ≤ LONGEST_INPUT }
    requires sound { HasTables engine.old }
    ensures answer { (limits : Limits) (state : State) → Stands limits (S.files store.old) state engine.old
        → IsPieceAnswer limits (S.files store.old) (is_some (S.files store.old)) state text.now result engine.new }
    ensures sound { HasTables engine.new }
    ensures store { IsAsked S.files S.faults S.never_fails (IsStoreFault result) store.old store.new }
    ensures unasked { (state : State) → IsEngineOf state.tables engine.old → ¬ (IsAsking state text.now) → store.new ≡ store.old }
{
    match said_by(alloc, text)? {
        None => Ok(None),
        Some(said) => match answer_said(alloc, engine, store, &said, decodes) {
            Ok(told) => Ok(Some(told)),
            Err(why) => Err(why),
        },
    }
}

// Answers one piece, and says whether it was refused.
fn answer_piece<M: Ledger, W: Sink, S: Store>(
    alloc: Global,
    engine: &mut Engine<M>,
    store: &mut S,
    text: &[u8],
    output: &mut W,
    decodes: &mut Steps<M>,
) -> Result<bool, Stop>
    requires short { length text.now ≤ LONGEST_INPUT }
    requires sound { HasTables engine.old }
    ensures answered { IfOk result (λ refused. (limits : Limits) (state : State) → Stands limits (S.files store.old) state engine.old
        → AreAnswered limits (S.files store.old) (is_some (S.files store.old)) state (text.now ∷ [])
        (sink_view W.given W.faults W.sure_room output.old) (sink_view W.given W.faults W.sure_room output.new) refused engine.new) }
    ensures stopped { IfErr result (λ why. (limits : Limits) (state : State) → Stands limits (S.files store.old) state engine.old
        → AreStopped limits (is_some (S.files store.old)) state (text.now ∷ [])
        (sink_view W.given W.faults W.sure_room output.old) (sink_view W.given W.faults W.sure_room output.new) why) }
    ensures sound { HasTables engine.new }
    ensures store { IsAsked S.files S.faults S.never_fails (IsStoreFault result) store.old store.new }
    ensures unasked { (limits : Limits) (state : State) → Stands limits (S.files store.old) state engine.old
        → NeverAsks limits (is_some (S.files store.old)) state (text.now ∷ []) → store.new ≡ store.old }
{
    let told = match answer_by(alloc, engine, store, text, decodes) {
        Ok(Some(told)) => told,
        Ok(None) => return Ok(false),
        Err(why) => return Err(why),
    };
    match write_all(output, told.line.as_slice()) {
        Ok(()) => Ok(told.refused),
        Err(Failed) => Err(Stop::Sink),
    }
}

// The bytes of a piece.
fn text_at(script: &[u8], place: Place) -> &[u8]
    requires { IsWithin script.now place }
    ensures text { result.now ≡ text_at script.now place }
    ensures within { length result.now ≤ length script.now }
{
    &script[place.start as usize..place.end as usize]
}

// Answers pieces, one behind the other, and says whether one was refused.
pub(crate) fn answer_pieces<M: Ledger, W: Sink, S: Store>(
    alloc: Global,
    engine: &mut Engine<M>,
    store: &mut S,
    script: &[u8],
    places: &[Place],
    output: &mut W,
    decodes: &mut Steps<M>,
) -> Result<bool, Stop>
    requires short { length script.now ≤ LONGEST_INPUT }
    requires within { All (IsWithin script.now) places.now }
    requires sound { HasTables engine.old }
    ensures answered { IfOk result (λ refused. (limits : Limits) (state : State) → Stands limits (S.files store.old) state engine.old
        → AreAnswered limits (S.files store.old) (is_some (S.files store.old)) state (map (text_at script.now) places.now)
        (sink_view W.given W.faults W.sure_room output.old) (sink_view W.given W.faults W.sure_room output.new) refused engine.new) }
    ensures stopped { IfErr result (λ why. (limits : Limits) (state : State) → Stands limits (S.files store.old) state engine.old
        → AreStopped limits (is_some (S.files store.old)) state (map (text_at script.now) places.now)
        (sink_view W.given W.faults W.sure_room output.old) (sink_view W.given W.faults W.sure_room output.new) why) }
    ensures store { IsAsked S.files S.faults S.never_fails (IsStoreFault result) store.old store.new }
    ensures unasked { (limits : Limits) (state : State) → Stands limits (S.files store.old) state engine.old
        → NeverAsks limits (is_some (S.files store.old)) state (map (text_at script.now) places.now) → store.new ≡ store.old }
{
    let mut refused = false;
    for place in places {
        let text = text_at(script, *place);
        refused |= answer_piece(alloc, engine, store, text, output, decodes)?;
    }
    Ok(refused)
}
