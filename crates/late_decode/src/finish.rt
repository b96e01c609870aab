// The answer that groups give.
ghost use Rattle.std.specs.Prelude.{◌≡◌, true, not, IfOk, IsTrue};
ghost use Rattle.std.specs.List.{list_any};
ghost use Rattle.blink_base.specs.Lines.{cut_at, line_cmp};
ghost use Rattle.blink_lists.specs.Lists.{in_order};
ghost use Rattle.late_decode.specs.Bounds.{counts_first, is_key_slot, slots_within};
ghost use Rattle.late_decode.specs.GroupLines.{finished, keys_of};

use crate::first_lines::{MOST_FIRST_LINES, first_lines};
use crate::order::compare_lines;
use crate::{Finish, Groups, LineOrder};
use blink_base::{Answer, Field, List};
use std::alloc::{AllocError, Global};

impl Groups {
    /// The answer: a line a group, or with `repeat` as many as its first measure counts; with `single` and no group one line
    /// over no rows. The lines are ordered by the keys of the order and then by all items from left to right, NULL last, and
    /// cut by the limit. Keys and bounds move into the lines; only a field that stands twice is copied.
    ///
    /// Slots are in range, for each group; with `repeat` the first measure is Count, and with `single` no slot is of the key.
    /// Source: ISO/IEC 9075 (query specification, set functions, ORDER BY); the truncated average, ties and LIMIT are this
    /// project's own.
    pub fn finish(self, alloc: Global, finish: &Finish) -> Result<Answer, AllocError>
        requires slots { IsTrue (slots_within self.0 finish.now.slots self.1) }
        requires repeat { finish.now.repeat ≡ true → IsTrue (counts_first self.0) }
        requires single { finish.now.single ≡ true → IsTrue (not (list_any is_key_slot finish.now.slots)) }
        ensures { IfOk result (λ answer. answer ≡ finished self.0 finish.now self.1) }
    {
        let lines = self.lines(alloc, finish)?;
        let lines = ordered(alloc, finish, lines)?;
        Ok(Answer {
            names: finish.names.copy(alloc)?,
            lines: List::from_vec(lines),
        })
    }
}

// Lines in their order, cut by the limit. Where few are asked for, the others aren't ordered.
fn ordered(
    alloc: Global,
    finish: &Finish,
    lines: Vec<List<Field>>,
) -> Result<Vec<List<Field>>, AllocError>
    ensures { IfOk result (λ ordered. ordered.items ≡ cut_at finish.now.limit (in_order (line_cmp (keys_of finish.now.order)) lines.items)) }
{
    let order = finish.order.as_slice();
    match finish.limit {
        Some(most) if most <= MOST_FIRST_LINES => first_lines(alloc, order, most as usize, lines),
        limit => Ok(sorted(order, limit, lines)),
    }
}

// All lines put in order, and cut by the limit.
fn sorted(order: &[LineOrder], limit: Option<u64>, lines: Vec<List<Field>>) -> Vec<List<Field>>
    ensures { result.items ≡ cut_at limit (in_order (line_cmp (keys_of order.now)) lines.items) }
{
    let mut all = lines;
    sort_lines(order, &mut all);
    cut_lines(limit, &mut all);
    all
}

// Puts lines into their order.
fn sort_lines(order: &[LineOrder], lines: &mut Vec<List<Field>>)
    ensures { lines.new.items ≡ in_order (line_cmp (keys_of order.now)) lines.old.items }
{
    lines.sort_unstable_by(|x, y| compare_lines(order, x, y));
}

// Keeps the first lines, where there is a limit.
fn cut_lines(limit: Option<u64>, lines: &mut Vec<List<Field>>)
    ensures { lines.new.items ≡ cut_at limit lines.old.items }
{
    if let Some(most) = limit {
        if most < lines.len() as u64 {
            lines.truncate(most as usize);
        }
    }
}
