// Groups of values.
ghost use Rattle.std.specs.Prelude.{◌≡◌, ◌≤◌, [], ◌∷◌, true, not, IfOk, OnOk, OnErr, IsTrue};
ghost use Rattle.std.specs.List.{list_any};
ghost use Rattle.blink_lists.specs.Rearrangement.{Rearranged};
ghost use Rattle.blink_base.specs.Values.{same_row};
ghost use Rattle.late_decode.specs.Groups.{added};
ghost use Rattle.late_decode.specs.Bounds.{most_combinations, are_parts, combinations_in, is_key_slot, slots_within};
ghost use Rattle.late_decode.specs.GroupLines.{lines_of, or_single};

use crate::key::Key;
use crate::lines::{group_lines, push_group};
use crate::parts::{merge_parts, no_parts};
use crate::{Finish, Measure, Part};
use blink_base::{Field, List, Row};
use indexmap::IndexMap;
use std::alloc::{AllocError, Global};
use std::marker::Model;

/// Groups by key, seen as their measures and as a list of keys, each with one part a measure, in the order in which the
/// keys first came. Source: ISO/IEC 9075 (GROUP BY clause).
#[derive(Drop)]
pub struct Groups {
    measures: List<Measure>,
    groups: IndexMap<Key, List<Part>>,
}

impl Model for Groups {
    ghost use Rattle.std.specs.Prelude.{List, IsTrue};
    ghost use Rattle.blink_base.specs.Values.{Row as Values};
    ghost use Rattle.late_decode.specs.declared.plan.Measure.{Measure as OneMeasure};
    ghost use Rattle.late_decode.specs.Groups.{Grouped};
    ghost use Rattle.late_decode.specs.Bounds.{are_groups};

    ghost Value = { List OneMeasure × Grouped Values };

    ghost view = { λ g. (g.measures, g.groups.entries) };

    ghost invariant = { λ g. IsTrue (are_groups g.measures g.groups.entries) };
}

impl Groups {
    /// No groups, of these measures. It takes no memory.
    pub fn new(alloc: Global, measures: List<Measure>) -> Groups
        ensures measures { result.0 ≡ measures }
        ensures groups { result.1 ≡ [] }
    {
        Groups {
            measures,
            groups: IndexMap::new(alloc),
        }
    }

    /// Adds parts, one a measure, to the group of a key; a new key goes last. Counts and sums are added, the lesser or the
    /// greater bound stays. Where the key is there it takes no memory and copies no value. A refused `add` keeps the groups.
    ///
    /// The parts are bounded, and there are at most 8,388,608 combinations in all. Source: ISO/IEC 9075 (set functions).
    pub fn add(&mut self, alloc: Global, key: Row, parts: List<Part>) -> Result<(), AllocError>
        requires parts { IsTrue (are_parts self.old.0 parts) }
        requires few { combinations_in self.old.0 ((key, parts) ∷ self.old.1) ≤ most_combinations }
        ensures measures { self.new.0 ≡ self.old.0 }
        ensures ok { OnOk result (self.new.1 ≡ added same_row self.old.0 key parts self.old.1) }
        ensures err { OnErr result (self.new.1 ≡ self.old.1) }
    {
        let measures = self.measures.as_slice();
        let key = Key::new(key);
        match self.groups.get_index_of(&key) {
            Some(at) => {
                match self.groups.get_index_mut(at) {
                    Some(own) => merge_parts(measures, own, parts),
                    None => unreachable!(),
                }
                Ok(())
            }
            None => {
                let mut own = no_parts(alloc, measures)?;
                merge_parts(measures, &mut own, parts);
                self.groups.insert(key, own)?;
                Ok(())
            }
        }
    }

    // The lines of the groups, in some order; with `single` and no group one line over no rows.
    pub(crate) fn lines(
        self,
        alloc: Global,
        finish: &Finish,
    ) -> Result<Vec<List<Field>>, AllocError>
        requires slots { IsTrue (slots_within self.0 finish.now.slots self.1) }
        requires single { finish.now.single ≡ true → IsTrue (not (list_any is_key_slot finish.now.slots)) }
        ensures { IfOk result (λ lines. Rearranged lines.items (lines_of self.0 finish.now.slots finish.now.repeat (or_single finish.now.single self.0 self.1))) }
    {
        let Groups { measures, groups } = self;
        let measures = measures.as_slice();
        if finish.single && groups.is_empty() {
            let mut lines = Vec::new(alloc);
            let parts = no_parts(alloc, measures)?;
            push_group(alloc, &mut lines, measures, finish, List::new(alloc), parts)?;
            return Ok(lines);
        }
        group_lines(alloc, measures, groups, finish)
    }
}
