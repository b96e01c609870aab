//! Laws of groups by code, which their definitions meet.

ghost use Rattle.code_group.specs.CellLaws.{CellsHaveClasses};
ghost use Rattle.code_group.specs.GroupLaws.{ImageGroups};
ghost use Rattle.code_group.specs.PlanLaws.{SlotsOfPlan};

use code_join::laws::{entries_by_place, places_by_code};
use late_decode::laws::{coded_rows_group, rows_group, spilled_group};

/// The groups of selected rows, cell by cell by code tuples and then rest by values, are those of these rows in some order.
/// Source: after Raman et al., ICDE 2008 (aggregation on codes).
pub fn groups_of_an_image()
    ensures { ImageGroups }
{
    entries_by_place();
    places_by_code();
    coded_rows_group();
    rows_group();
    spilled_group();
}

/// A cell of a valid image has a class a column, and codes in range. Source: this project's own.
pub fn cells_have_classes()
    ensures { CellsHaveClasses }
{}

/// Slots of a plan's keys and measures are in range of groups of the plan. Source: this project's own.
pub fn slots_are_of_plan()
    ensures { SlotsOfPlan }
{}
