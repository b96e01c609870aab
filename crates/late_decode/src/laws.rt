//! Laws of groups that are merged, which their definitions meet.

ghost use Rattle.late_decode.specs.Laws.{PartsMerge, RowsGroup, CodedRowsGroup, SpilledGroup};
ghost use Rattle.late_decode.specs.Combinations.{CombinationsCounted};
ghost use Rattle.late_decode.specs.Sums.{SumsBounded, FormulasBounded};
ghost use Rattle.late_decode.specs.BoundLaws.{AddedAreGroups, AddedAreCoded, AddedAreDistinct, SlotsStayWithin, CombinationsAdded, CodedCombinationsAdded, CombinationsTogether, CountsAdded, CodedPartsWithin, CountsBounded, RowsAreParts};

/// The part of some rows and of further rows is that of both, merged. Source: this project's own.
pub fn parts_merge()
    ensures { PartsMerge }
{}

/// Rows added one by one to the groups of others give the groups of all. Source: this project's own.
pub fn rows_group()
    ensures { RowsGroup }
{}

/// Rows of codes added one by one to the groups of others give the groups of all. Source: this project's own.
pub fn coded_rows_group()
    ensures { CodedRowsGroup }
{}

/// Groups by codes, added at the keys that the codes stand for, give the groups of all rows, where equal keys may have
/// several codes. Source: this project's own.
pub fn spilled_group()
    ensures { SpilledGroup }
{}

/// Groups of rows have as many combinations as there are rows, where something is measured. Source: this project's own.
pub fn combinations_counted()
    ensures { CombinationsCounted }
{}

/// A sum of numbers of at most a size is at most their count times that size. Source: this project's own.
pub fn sums_bounded()
    ensures { SumsBounded }
{}

/// A formula over numbers of at most fifteen digits is at most 10^30 in size. Source: this project's own.
pub fn formulas_bounded()
    ensures { FormulasBounded }
{}

/// Groups by values with one bounded part a measure stay so where bounded parts are added. Source: this project's own.
pub fn added_are_groups()
    ensures { AddedAreGroups }
{}

/// Groups by codes with one bounded part a measure stay so where bounded parts are added. Source: this project's own.
pub fn added_are_coded()
    ensures { AddedAreCoded }
{}

/// The parts of one row are bounded, where its numbers have at most fifteen digits. Source: this project's own.
pub fn rows_are_parts()
    ensures { RowsAreParts }
{}

/// Groups keep each key once where parts are added. Source: this project's own.
pub fn added_are_distinct()
    ensures { AddedAreDistinct }
{}

/// Slots in range of groups and of a key stay so where parts are added at this key. Source: this project's own.
pub fn slots_stay_within()
    ensures { SlotsStayWithin }
{}

/// Groups by values have no more combinations than before and those of the parts that are added. Source: this project's own.
pub fn combinations_added()
    ensures { CombinationsAdded }
{}

/// Groups by codes have no more combinations than before and those of the parts that are added. Source: this project's own.
pub fn coded_combinations_added()
    ensures { CodedCombinationsAdded }
{}

/// Parts beside groups make no more combinations than both have. Source: this project's own.
pub fn combinations_together()
    ensures { CombinationsTogether }
{}

/// Each measure counts no more than before and in the parts that are added. Source: this project's own.
pub fn counts_added()
    ensures { CountsAdded }
{}

/// The parts of a group by codes are as those of all groups, and count no more than they do. Source: this project's own.
pub fn coded_parts_within()
    ensures { CodedPartsWithin }
{}

/// The greatest of some counts is no less than each, and no more than what none exceeds. Source: this project's own.
pub fn counts_bounded()
    ensures { CountsBounded }
{}
