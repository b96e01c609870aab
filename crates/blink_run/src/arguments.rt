// The arguments.
ghost use Rattle.std.specs.Prelude.{◌≡◌, false, map, string_bytes, true};
ghost use Rattle.blink_base.specs.ReadValue.{whole_number};
ghost use Rattle.blink_run.specs.DemoNumbers.{rows_of, seed_of};
ghost use Rattle.blink_run.specs.Ends.{LeavesInput, ReadsInput};
ghost use Rattle.blink_run.specs.Options.{limits_of};
ghost use Rattle.blink_run.specs.Program.{asked_by, count_asked, count_form, demo_asked, demo_form, run_asked};

mod demo;
mod options;

use crate::arguments::demo::{rows_of, seed_of};
use crate::arguments::options::limits_of;
use blink_base::{Limits, whole_number};

// A column, and the least and the greatest number that count.
#[derive(Clone, Copy)]
pub(crate) struct Bounds<'a> {
    pub(crate) column: &'a str,
    pub(crate) low: i64,
    pub(crate) high: i64,
}

// What the arguments ask for.
#[derive(Clone, Copy)]
pub(crate) enum Request<'a> {
    // The answers to a script.
    Run(Limits),
    // How many values of a column lie between two bounds.
    Count(Bounds<'a>),
    // A demonstration, of a seed and so many orders.
    Demo { seed: u32, rows: u32 },
    // The arguments are in no stated form.
    Unknown,
}

impl<'a> Request<'a> {
    ghost use Rattle.blink_run.specs.Request.{asked_of, IsAllowed};

    // The answers to a script, where the options say limits.
    fn run(options: &'a [String]) -> Request<'a>
        ensures asked { asked_of result ≡ run_asked (limits_of (map string_bytes options.now)) }
        ensures allowed { IsAllowed result }
    {
        match limits_of(options) {
            Some(limits) => Request::Run(limits),
            None => Request::Unknown,
        }
    }

    // The count between two bounds, where both are whole numbers.
    fn count(column: &'a str, low: &str, high: &str) -> Request<'a>
        ensures asked { asked_of result ≡ count_asked column.now (whole_number low.now) (whole_number high.now) }
        ensures allowed { IsAllowed result }
    {
        match (whole_number(low.as_bytes()), whole_number(high.as_bytes())) {
            (Some(low), Some(high)) => Request::Count(Bounds { column, low, high }),
            _ => Request::Unknown,
        }
    }

    // The count that the arguments behind `range` ask for.
    fn range(args: &'a [String]) -> Request<'a>
        ensures asked { asked_of result ≡ count_form (map string_bytes args.now) }
        ensures allowed { IsAllowed result }
    {
        match args {
            [column, low, high] => Request::count(column.as_str(), low.as_str(), high.as_str()),
            _ => Request::Unknown,
        }
    }

    // The demonstration, where both numbers are some that it may have.
    fn demo(seed: &str, rows: &str) -> Request<'a>
        ensures asked { asked_of result ≡ demo_asked (seed_of seed.now) (rows_of rows.now) }
        ensures allowed { IsAllowed result }
    {
        match (seed_of(seed), rows_of(rows)) {
            (Some(seed), Some(rows)) => Request::Demo { seed, rows },
            _ => Request::Unknown,
        }
    }

    // The demonstration that the arguments behind `demo` ask for.
    fn demonstration(args: &'a [String]) -> Request<'a>
        ensures asked { asked_of result ≡ demo_form (map string_bytes args.now) }
        ensures allowed { IsAllowed result }
    {
        if args.len() != 2 {
            return Request::Unknown;
        }
        Request::demo(args[0].as_str(), args[1].as_str())
    }

    // Whether the input is read.
    pub(crate) fn reads_input(self) -> bool
        ensures yes { result ≡ true → ReadsInput (asked_of self.entry) }
        ensures no { result ≡ false → LeavesInput (asked_of self.entry) }
    {
        match self {
            Request::Run(_) | Request::Count(_) => true,
            Request::Demo { .. } | Request::Unknown => false,
        }
    }

    // What the arguments ask for. It takes no memory.
    pub(crate) fn of_args(args: &'a [String]) -> Request<'a>
        ensures asked { asked_of result ≡ asked_by (map string_bytes args.now) }
        ensures allowed { IsAllowed result }
    {
        let [verb, rest @ ..] = args else {
            return Request::Unknown;
        };
        if verb.as_str() == "run" {
            Request::run(rest)
        } else if verb.as_str() == "range" {
            Request::range(rest)
        } else if verb.as_str() == "demo" {
            Request::demonstration(rest)
        } else {
            Request::Unknown
        }
    }
}
