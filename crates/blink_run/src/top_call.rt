// The program.
ghost use Rattle.std.specs.Prelude.{◌≡◌, ◌≢◌, ◌≤◌, ◌<◌, ℕ, Bool, List, Some, is_some, length, map, string_bytes};
ghost use Rattle.report_text.specs.Texts.{usage_bytes};
ghost use Rattle.blink_base.specs.declared.limits.TheConstants.{LONGEST_INPUT};
ghost use Rattle.star_engine.specs.State.{Files};
ghost use Rattle.blink_run.specs.Program.{asked_by, nothing_known, Told, Tells};
ghost use Rattle.blink_run.specs.Ends.{Ends, IsComplete, EndsAtFault, Gives, AreFiles, AreKnown, AsksNothing, IsAsked, LeavesInput, NeverAsked, outside, stream_view, store_view};
ghost use Rattle.blink_run.specs.Request.{asked_of, IsAllowed};

mod count;
mod demo;
mod status;

use crate::arguments::Request;
use crate::output::USAGE;
use crate::script::answer_script;
use crate::top_call::count::answer_count;
use crate::top_call::demo::answer_demo;
use blink_base::LONGEST_INPUT;
use blink_edge::{Failed, ReadError, Sink, Source, Store, Taken, read_all, write_all};
pub use status::Status;
use std::alloc::Global;
use std::marker::Brand;
use std::sync::ledger::{Blank, Ledger};
use word_pool::{Steps, Tally};

// Prints how the program is used. It takes no memory.
fn answer_usage<W: Sink>(output: &mut W) -> Status
    ensures ends { (stay : Bool) (files : Files) (input : List ℕ) → Gives nothing_known stay files input (stream_view W.given W.faults output.old) (stream_view W.given W.faults output.new) result }
    ensures quiet { result ≢ Status.WriteFault → W.faults output.new ≡ W.faults output.old }
    ensures later { W.faults output.old ≤ W.faults output.new }
    ensures sure { length usage_bytes ≤ W.sure_room output.old → W.faults output.new ≡ W.faults output.old }
{
    match write_all(output, USAGE.as_bytes()) {
        Ok(()) => Status::Usage,
        Err(Failed) => Status::WriteFault,
    }
}

// Answers what is asked, over an input. The codes that are decoded are counted on the ledger of a blank.
fn answer<N: Ledger, W: Sink, S: Store>(
    alloc: Global,
    blank: Blank,
    request: Request<'_>,
    input: &[u8],
    output: &mut W,
    store: &mut S,
) -> Status
    requires name { blank.name ≡ N.name }
    requires parts { blank.parts ≡ N.parts }
    requires some { 0 < blank.parts }
    requires short { length input.now ≤ LONGEST_INPUT }
    requires allowed { IsAllowed request }
    ensures ends { (files : Files) → AreFiles (S.files store.old) files → Gives (asked_of request.entry) (is_some (S.files store.old)) files input.now
        (stream_view W.given W.faults output.old) (stream_view W.given W.faults output.new) result }
    ensures quiet { result ≢ Status.WriteFault → W.faults output.new ≡ W.faults output.old }
    ensures later { W.faults output.old ≤ W.faults output.new }
    ensures sure { (files : Files) (told : Told) → AreKnown (asked_of request.entry) (S.files store.old) files
        → Tells (asked_of request.entry) (is_some (S.files store.old)) files input.now told
        → length told.printed ≤ W.sure_room output.old → W.faults output.new ≡ W.faults output.old }
    ensures store { IsAsked S.files S.faults S.never_fails (result ≡ Status.StoreFault) store.old store.new }
    ensures kept { AsksNothing (asked_of request.entry) → store.new ≡ store.old }
    ensures unasked { (files : Files) → AreFiles (S.files store.old) files
        → NeverAsked (asked_of request.entry) (is_some (S.files store.old)) files input.now → store.new ≡ store.old }
{
    let mut decodes: Steps<Tally<N>> = Steps::new(Tally::new(blank));
    match request {
        Request::Run(limits) => answer_script(alloc, limits, input, output, store, &mut decodes),
        Request::Count(bounds) => answer_count(alloc, bounds, input, output),
        Request::Demo { seed, rows } => answer_demo(alloc, seed, rows, output, &mut decodes),
        Request::Unknown => answer_usage(output),
    }
}

/// Runs the program that the words ask for, the program's own name left out.
///
/// `run`, with `--rows N` and `--blocks N` behind it, each at most once and in any order, reads the source to its end as
/// one script, and prints for each statement its output or the line of its refusal, one after the other. N is one to nine
/// digits, from 1 to 8,388,608 rows or 2,097,152 blocks. Each output is given to the sink whole, once its statement has
/// taken effect. The tables are kept for this run alone. The store is asked by LOAD and APPEND into a table that is there,
/// for a file of at most 134,217,728 bytes, and by nothing else; a fault of it ends the run.
/// `range COLUMN LOW HIGH`, where LOW and HIGH are whole numbers, reads the source to its end as one CSV
/// text and prints how many of its records have LOW <= COLUMN <= HIGH, or the line of a refusal.
/// `demo SEED ROWS` prints what `run` prints for the script of a demonstration over its files, which lie in memory: SEED
/// is from 0 to 2,147,483,647 and ROWS, the number of orders, from 1 to 1,000,000, each of one to ten digits. It reads
/// nothing and asks no store. Any other words print the usage line; they read nothing and take no memory.
///
/// How a run ends, what was read and what was printed is said for each status by `Ends`: a fault is answered only where
/// that object's count of faults rose or stands at its last value, the first fault ends the run, and want of memory may
/// come at any point. What is printed is what the statements print over the files that the store tells; where it tells
/// none, each statement goes by the files that it finds. Source: this project's own.
pub fn run<R: Source, W: Sink, S: Store>(
    alloc: Global,
    words: &[String],
    input: &mut R,
    output: &mut W,
    store: &mut S,
) -> Status
    ensures ends { Ends (asked_by (map string_bytes words.now))
        (outside (stream_view R.left R.faults input.old) (stream_view W.given W.faults output.old) (store_view S.files S.faults store.old))
        (outside (stream_view R.left R.faults input.new) (stream_view W.given W.faults output.new) (store_view S.files S.faults store.new)) result }
    ensures complete { IsComplete (asked_by (map string_bytes words.now))
        (outside (stream_view R.left R.faults input.old) (stream_view W.given W.faults output.old) (store_view S.files S.faults store.old))
        (outside (stream_view R.left R.faults input.new) (stream_view W.given W.faults output.new) (store_view S.files S.faults store.new)) result }

    // The first fault ends the run: no count of faults rises but that of the fault that is answered.
    ensures first_fault { EndsAtFault
        (outside (stream_view R.left R.faults input.old) (stream_view W.given W.faults output.old) (store_view S.files S.faults store.old))
        (outside (stream_view R.left R.faults input.new) (stream_view W.given W.faults output.new) (store_view S.files S.faults store.new)) result }

    // The store keeps the files that it tells, and is as it was where no statement asks it and for words that ask for no
    // script over it; for a demonstration and for words in no stated form so is the source.
    ensures store { IsAsked S.files S.faults S.never_fails (result ≡ Status.StoreFault) store.old store.new }
    ensures store_kept { AsksNothing (asked_by (map string_bytes words.now)) → store.new ≡ store.old }
    ensures unasked { (bytes : List ℕ) (files : Files) → R.left input.old ≡ Some bytes → AreFiles (S.files store.old) files
        → NeverAsked (asked_by (map string_bytes words.now)) (is_some (S.files store.old)) files bytes → store.new ≡ store.old }
    ensures source_kept { LeavesInput (asked_by (map string_bytes words.now)) → input.new ≡ input.old }

    // No count of faults falls, and none rises where no call fails and there is room for all that is told.
    ensures source_later { R.faults input.old ≤ R.faults input.new }
    ensures sink_later { W.faults output.old ≤ W.faults output.new }
    ensures source_sure { R.never_fails input.old → R.faults input.new ≡ R.faults input.old }
    ensures sink_sure { (bytes : List ℕ) (files : Files) (told : Told) → R.left input.old ≡ Some bytes
        → AreKnown (asked_by (map string_bytes words.now)) (S.files store.old) files
        → Tells (asked_by (map string_bytes words.now)) (is_some (S.files store.old)) files bytes told
        → length told.printed ≤ W.sure_room output.old → W.faults output.new ≡ W.faults output.old }
{
    let request = Request::of_args(words);
    if !request.reads_input() {
        return answer::<Brand, W, S>(alloc, Blank::new(1), request, &[], output, store);
    }
    let mut bytes = Vec::new(alloc);
    match read_all(input, LONGEST_INPUT, &mut bytes) {
        Ok(Taken::Whole) => answer::<Brand, W, S>(
            alloc,
            Blank::new(1),
            request,
            bytes.as_slice(),
            output,
            store,
        ),
        Ok(Taken::Long) => Status::Long,
        Err(ReadError::Failed) => Status::ReadFault,
        Err(ReadError::Memory) => Status::Memory,
    }
}
