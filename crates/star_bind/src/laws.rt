//! Laws of bound queries, which their definitions meet.

ghost use Rattle.star_bind.specs.Laws.{KeptPerFactRow, FactorsMeet, FactorsAreCondition, ConjunctionsAreCondition, KeptByConjunctions, NamesColumns};
ghost use Rattle.star_bind.specs.Joins.{JoinsByKeys};
ghost use Rattle.star_bind.specs.Counts.{ConjunctionsCounted};
ghost use Rattle.star_bind.specs.Caps.{CapsCompose};
ghost use Rattle.star_bind.specs.BoundAnswer.{AnswersAsBound};
ghost use Rattle.star_bind.specs.QueryShape.{QueriesHaveShape};

/// A factor whose tests are all of one table is true of a row exactly where the row passes some conjunction of it. Source:
/// this project's own.
pub fn factors_meet()
    ensures { FactorsMeet }
{}

/// A whole WHERE is the AND of its factors. Source: ISO/IEC 9075.
pub fn factors_are_condition()
    ensures { FactorsAreCondition }
{}

/// In a query that is accepted, a row makes its table's condition true exactly where it passes all tests of some
/// conjunction. Source: this project's own.
pub fn conjunctions_are_condition()
    ensures { ConjunctionsAreCondition }
{}

/// A query of one table that is accepted keeps the rows that pass some conjunction. Source: this project's own.
pub fn kept_by_conjunctions()
    ensures { KeptByConjunctions }
{}

/// How many conjunctions a condition has: one for a part that names one column, and else the sum over the parts of an OR and
/// the product over the parts of an AND. Source: this project's own.
pub fn conjunctions_counted()
    ensures { ConjunctionsCounted }
{}

/// The conjunctions of a query of one table name columns of the table. Source: this project's own.
pub fn names_columns()
    ensures { NamesColumns }
{}

/// Numbers of conjunctions may be capped at 65 at each step of their sums and products. Source: this project's own.
pub fn caps_compose()
    ensures { CapsCompose }
{}

/// In a query that is accepted, each row of the fact is kept at most once: beside the one row of each dimension whose key
/// equals. Source: this project's own.
pub fn kept_per_fact_row()
    ensures { KeptPerFactRow }
{}

/// What a query that is accepted keeps is, of each row of its fact, that one combination, where the row's own condition is
/// true and each dimension has a row of the tied key on which its own condition is true. Source: ISO/IEC 9075 (FROM and
/// WHERE clauses); the star form is this project's own.
pub fn joins_by_keys()
    ensures { JoinsByKeys }
{}

/// The answer to a query that is accepted is that of the bound query: its items, names, groups, order and limit over the
/// combinations that are kept. Source: ISO/IEC 9075 (query expressions).
pub fn answers_as_bound()
    ensures { AnswersAsBound }
{}

/// In a well formed query that is accepted, every table and column is there; a tie goes to another table with a key; a sum
/// and an average take whole numbers; the condition on each table is 1 to 64 conjunctions, each of columns of that table
/// and of none twice; and each key of the order is an item. Source: this project's own.
pub fn queries_have_shape()
    ensures { QueriesHaveShape }
{}
