//! Laws of queries over images, which their definitions meet.

ghost use Rattle.star_select.specs.CodeSelection.{SelectsByCodes, SelectsByConjunctions, WantedByCodes};
ghost use Rattle.star_select.specs.Decodes.{DecodesAddUp};
ghost use Rattle.star_select.specs.GoodDates.{AnswersHaveDates};
ghost use Rattle.star_select.specs.GroupAnswer.{AnswersByGroups, QueriesAreGrouped};
ghost use Rattle.star_select.specs.ImageAnswer.{AnswersByCodes, FactNamed, ImagesMayBeAsked, KeysByCodes, TablesHaveImages};
ghost use Rattle.star_select.specs.KeySets.{KeysOnce, PicksByPlace, SelectsByKeys};
ghost use Rattle.star_select.specs.Preconditions.{ConditionsAreThere, EmptySetsPassNone, FactTestsApart, GroupsCanFinish, PagesAreJoined, PlansAreThere, SetsMeet, SumsAreNumbers, TiesHaveDimensions};

use blink_base::laws::{lines_in_any_order, rows_are_told_apart, totals_in_any_order};
use cell_scan::laws::sets_are_tests;
use code_group::laws::groups_of_an_image;
use code_join::laws::entries_of_keys;
use star_bind::laws::{answers_as_bound, joins_by_keys, queries_have_shape};

/// A row of the fact has its combination exactly where its own condition is true of it and each tied value is a key. Source:
/// after Raman et al., ICDE 2008 (star joins by key sets).
pub fn selects_by_keys()
    ensures { SelectsByKeys }
{
    entries_of_keys();
}

/// The pick of a column that items or groups name finds the value of that column in the combination of a row of the fact.
/// Source: this project's own.
pub fn picks_by_place()
    ensures { PicksByPlace }
{}

/// No key stands twice in the key set of a tie. Source: ISO/IEC 9075 (primary keys).
pub fn keys_once()
    ensures { KeysOnce }
{}

/// In a query that is accepted, columns are grouped by only where GROUP BY stands, and where it or an aggregate does, each
/// bare column among the items is one of them. Source: ISO/IEC 9075 (GROUP BY clause).
pub fn queries_are_grouped()
    ensures { QueriesAreGrouped }
{}

/// The answer to a query is that of the groups of the selected rows of its fact, by the plan of the query and finished as it
/// asks, in whatever order the rows are taken. Source: ISO/IEC 9075 (queries); groups by picks are this project's own.
pub fn answers_by_groups()
    ensures { AnswersByGroups }
{
    lines_in_any_order();
    totals_in_any_order();
    rows_are_told_apart();
    answers_as_bound();
    joins_by_keys();
    queries_have_shape();
    queries_are_grouped();
    selects_by_keys();
    picks_by_place();
}

/// A row of the fact is selected exactly where it passes the tests of some conjunction, with all key sets among them and at
/// most one test a column. Source: after Raman et al., ICDE 2008 (star joins on codes).
pub fn selects_by_conjunctions()
    ensures { SelectsByConjunctions }
{}

/// The codes of a row of a cell of the fact are selected exactly where the row that they stand for is. Source: after Raman et
/// al., ICDE 2008 (predicates on order-preserving codes).
pub fn selects_by_codes()
    ensures { SelectsByCodes }
{
    sets_are_tests();
    selects_by_conjunctions();
}

/// The rows that valid images stand for are ones that their tables may hold. Source: this project's own.
pub fn images_may_be_asked()
    ensures { ImagesMayBeAsked }
{
    queries_have_shape();
}

/// There is an image per table of a query, and one of its fact. Source: this project's own.
pub fn tables_have_images()
    ensures { TablesHaveImages }
{
    queries_have_shape();
}

/// The columns of conjunctions and of ties that a query names of its fact are columns of the fact's image, and there is a key
/// map per tie. Source: this project's own.
pub fn fact_named()
    ensures { FactNamed }
{
    queries_have_shape();
}

/// The answer to a query over the rows that valid images stand for is that of the groups that the image of its fact gives:
/// rows chosen by sets of codes, grouped by codes and by places of keys, cell by cell, decoded late, and merged with the rows
/// that are in no cell. Source: ISO/IEC 9075 (queries); after Raman et al., ICDE 2008 (queries over a frequency partition).
pub fn answers_by_codes()
    ensures { AnswersByCodes }
{
    answers_by_groups();
    selects_by_codes();
    groups_of_an_image();
    images_may_be_asked();
    fact_named();
}

/// The codes of a class that are in two sets are those whose values pass both tests. Source: this project's own.
pub fn sets_meet()
    ensures { SetsMeet }
{}

/// No row of a cell passes sets of codes of which one is empty. Source: this project's own.
pub fn empty_sets_pass_none()
    ensures { EmptySetsPassNone }
{}

/// All picks of a query's plan are there: columns of its fact's image, and wanted values of its key maps. Source: this
/// project's own.
pub fn plans_are_there()
    ensures { PlansAreThere }
{
    queries_have_shape();
    images_may_be_asked();
}

/// What is summed of a selected row of the fact is good whole numbers. Source: ISO/IEC 9075 (set functions).
pub fn sums_are_numbers()
    ensures { SumsAreNumbers }
{
    queries_have_shape();
    images_may_be_asked();
    selects_by_keys();
    picks_by_place();
}

/// Each tie leads to an image that has a key, which the key map is of, and the wanted columns. Source: this project's own.
pub fn ties_have_dimensions()
    ensures { TiesHaveDimensions }
{
    queries_have_shape();
}

/// A conjunction of the fact with all key sets tests no column twice: a test and a key set of one column are one. Source: this
/// project's own.
pub fn fact_tests_apart()
    ensures { FactTestsApart }
{
    queries_have_shape();
}

/// Groups by a query's plan can be finished as it asks. Source: this project's own.
pub fn groups_can_finish()
    ensures { GroupsCanFinish }
{
    queries_are_grouped();
}

/// What the key maps decode, a key and its wanted values a selected row of a dimension, and what the groups of the fact do, the
/// measured and the grouping columns a selected row of a cell, is no more than the query may decode. Source: after Raman et al.,
/// ICDE 2008 (late decoding); the bound is this project's own.
pub fn decodes_add_up()
    ensures { DecodesAddUp }
{
    queries_have_shape();
    selects_by_codes();
    fact_named();
}

/// The codes of a row of a cell pass the tests of some conjunction exactly where its table's own condition is true of the row
/// that they stand for. Source: after Raman et al., ICDE 2008 (predicates on order-preserving codes).
pub fn wanted_by_codes()
    ensures { WantedByCodes }
{
    sets_are_tests();
}

/// The condition on each table is 1 to 64 conjunctions, each of columns of its image and of none twice. Source: this project's
/// own.
pub fn conditions_are_there()
    ensures { ConditionsAreThere }
{
    queries_have_shape();
}

/// The keys of a tie are those of the wanted rows of its dimension's image, cell by cell by their codes, and then of those that
/// are in no cell. Source: after Raman et al., ICDE 2008 (dimensions are filtered first).
pub fn keys_by_codes()
    ensures { KeysByCodes }
{
    wanted_by_codes();
    conditions_are_there();
    ties_have_dimensions();
}

/// The tied values of the selected rows of a page of the fact are keys, and what is summed of them is good whole numbers.
/// Source: this project's own.
pub fn pages_are_joined()
    ensures { PagesAreJoined }
{
    selects_by_codes();
    fact_named();
    sums_are_numbers();
}

/// Each date in the answer to a query over valid images is one of the calendar. Source: ISO/IEC 9075 (dates).
pub fn answers_have_dates()
    ensures { AnswersHaveDates }
{}
