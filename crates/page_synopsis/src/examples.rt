//! Worked sets, as facts that compute.

ghost use Rattle.page_synopsis.specs.Examples.{SetsTold};

/// Runs of codes, and which sets are narrow.
pub fn sets_told()
    ensures { SetsTold }
{}
