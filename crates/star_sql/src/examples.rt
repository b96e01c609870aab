//! Worked statements, as facts that compute.

ghost use Rattle.star_sql.specs.Examples.{CreateSpelled, InsertSpelled, SelectSpelled, FormsRefused, DepthsCounted};

/// A CREATE TABLE, spelled.
pub fn create_spelled()
    ensures { CreateSpelled }
{}

/// An INSERT of two rows, spelled.
pub fn insert_spelled()
    ensures { InsertSpelled }
{}

/// A SELECT with every part, spelled as its text.
pub fn select_spelled()
    ensures { SelectSpelled }
{}

/// Statements that can't be written.
pub fn forms_refused()
    ensures { FormsRefused }
{}

/// Open parentheses.
pub fn depths_counted()
    ensures { DepthsCounted }
{}
