// A row of a cell beside the keys of its ties.
ghost use Rattle.std.specs.Prelude.{◌≡◌, ◌<◌, ◌≤◌, ◌+◌, [], ◌∷◌, true, IsTrue, OnOk, length};
ghost use Rattle.code_group.specs.CellRow.{HaveClasses, picked_by, pick_by, tuple_by};
ghost use Rattle.code_group.specs.Entries.{entry_in, maps_in, size_in, sizes_in, value_of_entry};
ghost use Rattle.code_group.specs.Plans.{fact_picks, pick_there};
ghost use Rattle.code_group.specs.Slots.{is_within};
ghost use Rattle.late_decode.specs.declared.plan.Pick.TheVariants.{Dimension};
ghost use Rattle.std.specs.List.{list_all};

use crate::tuple::Tuple;
use blink_base::Value;
use cell_layout::Image;
use code_join::laws::{entries_by_place, places_by_code};
use code_join::{KeyMap, PayloadMap};
use late_decode::Pick;
use order_codes::Dict;
use std::alloc::AllocError;
use std::marker::Model;
use word_pool::{Ledger, Steps};

// A row of a cell, and the keys that its ties lead to.
#[derive(Drop)]
pub(crate) struct CellRow<'a, M: Ledger> {
    pub(crate) image: &'a Image<M>,
    pub(crate) cell: usize,
    pub(crate) row: u64,
    pub(crate) ties: &'a [u32],
    pub(crate) maps: &'a [PayloadMap],
    pub(crate) keys: &'a [KeyMap],
}

impl<'a, M: Ledger> Model for CellRow<'a, M> {
    ghost use Rattle.std.specs.Prelude.{◌<◌, length};
    ghost use Rattle.cell_layout.specs.Image.{cell_at};
    ghost use Rattle.code_group.specs.CellRow.{TiedRow, tied_row, IsTied};

    ghost Value = { TiedRow };

    ghost view = { λ r. tied_row r.image.now r.cell r.row r.ties.now r.keys.now };

    ghost invariant = { λ r. (r.cell < length r.image.now.cells) × (r.row < length (cell_at r.image.now r.cell).rows) × IsTied (tied_row r.image.now r.cell r.row r.ties.now r.keys.now) r.maps.now };
}

impl<'a, M: Ledger> CellRow<'a, M> {
    // The entry of a pick: the code of a column, or the place of a tied value among its keys.
    fn entry(&self, pick: Pick) -> u32
        requires { IsTrue (pick_by self.now pick) }
        ensures entry { result ≡ entry_in self.now.ties (maps_in self.now.columns self.now.classes self.now.ties self.now.keys) self.now.codes pick }
        ensures within { result < size_in self.now.columns self.now.classes self.now.keys pick }
    {
        entries_by_place();
        places_by_code();
        match pick {
            Pick::Fact(column) => self.image.code(self.cell, self.row, column as usize),
            Pick::Dimension { tie, .. } => self.place(tie as usize),
        }
    }

    // The place of a tied value among the keys of its tie.
    fn place(&self, tie: usize) -> u32
        requires { tie < length self.now.ties }
        ensures { result ≡ entry_in self.now.ties (maps_in self.now.columns self.now.classes self.now.ties self.now.keys) self.now.codes (Dimension tie 0) }
    {
        let code = self
            .image
            .code(self.cell, self.row, self.ties[tie] as usize);
        match self.maps[tie].get(code) {
            Some(place) => place,
            None => 0,
        }
    }

    // Fills a tuple with the entries of picks.
    pub(crate) fn fill(&self, picks: &[Pick], tuple: &mut Tuple) -> Result<(), AllocError>
        requires { IsTrue (list_all (pick_by self.now) picks.now) }
        ensures tuple { OnOk result (tuple.new ≡ tuple_by self.now picks.now) }
        ensures within { OnOk result (is_within (sizes_in self.now.columns self.now.classes self.now.keys picks.now) tuple.new ≡ true) }
    {
        let _ = &self.image;
        entries_by_place();
        places_by_code();
        tuple.clear();
        for pick in picks {
            tuple.push(self.entry(*pick))?;
        }
        Ok(())
    }

    // The value of a pick. One of the fact is decoded.
    pub(crate) fn value(&self, pick: Pick, decodes: &mut Steps<M>) -> &'a Value
        requires { IsTrue (pick_by self.now pick) }
        ensures value { result.now ≡ picked_by self.now pick }
        ensures decodes { decodes.new ≤ decodes.old + fact_picks (pick ∷ []) }
    {
        entries_by_place();
        places_by_code();
        let dicts = self.image.dictionaries();
        let classes = self.image.cell_classes(self.cell);
        entry_value(dicts, classes, self.keys, pick, self.entry(pick), decodes)
    }
}

// The value that an entry stands for. One of the fact is decoded.
pub(crate) fn entry_value<'a, M: Ledger>(
    dicts: &'a [Dict<M>],
    classes: &[u32],
    keys: &'a [KeyMap],
    pick: Pick,
    entry: u32,
    decodes: &mut Steps<M>,
) -> &'a Value
    requires classes { HaveClasses dicts.now classes.now }
    requires pick { IsTrue (pick_there (length dicts.now) keys.now pick) }
    requires entry { entry < size_in dicts.now classes.now keys.now pick }
    ensures value { result.now ≡ value_of_entry dicts.now classes.now keys.now pick entry }
    ensures decodes { decodes.new ≤ decodes.old + fact_picks (pick ∷ []) }
{
    match pick {
        Pick::Fact(column) => {
            let at = column as usize;
            dicts[at].decode(classes[at], entry, decodes)
        }
        Pick::Dimension { tie, place } => {
            let payload = keys[tie as usize].payload(entry);
            &payload.as_slice()[place as usize]
        }
    }
}
