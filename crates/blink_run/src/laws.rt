//! Laws on scripts.

ghost use Rattle.blink_run.specs.Script.{FilesAreNamed, RunsOneWay};

use star_sql::one_spelling;

/// A script over a store that tells its files has one list of outcomes.
pub fn one_way_to_run()
    ensures { RunsOneWay }
{
    one_spelling();
}

/// A script of which no statement is LOAD, APPEND, EXPORT or IMPORT never asks the store.
pub fn files_are_named()
    ensures { FilesAreNamed }
{}
