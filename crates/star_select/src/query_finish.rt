// How the groups of a query give lines.
ghost use Rattle.std.specs.Prelude.{◌≡◌, IfOk, map};
ghost use Rattle.blink_lists.specs.Lists.{numbered, numbered_from};
ghost use Rattle.late_decode.specs.declared.plan.Slot.TheVariants.{Key};
ghost use Rattle.star_select.specs.Picks.{same_ref};
ghost use Rattle.star_select.specs.QueryPlan.{finish_of, group_place, is_single, slot_of, slots_if};

use crate::picks::short;
use crate::query_plan::{has_total, is_plain};
use blink_base::List;
use late_decode::{Finish, LineOrder, Slot};
use star_bind::{BoundItem, BoundOrder, ColumnRef, Query};
use std::alloc::{AllocError, Global};

// Whether one line stands for all rows.
fn is_single(query: &Query) -> bool
    ensures { result ≡ is_single query.now }
{
    !query.grouped && has_total(query.items.as_slice())
}

// Whether two columns are one.
fn same_ref(a: ColumnRef, b: ColumnRef) -> bool
    ensures { result ≡ same_ref a b }
{
    a.table == b.table && a.column == b.column
}

// The place of a column among those that are grouped by; their number where it isn't there.
fn group_place(groups: &[ColumnRef], r: ColumnRef) -> usize
    ensures { result ≡ group_place groups.now r }
{
    for (at, group) in groups.iter().enumerate() {
        if same_ref(r, *group) {
            return at;
        }
    }
    groups.len()
}

// What stands at an item's place, with its number counted from 1.
fn slot_of(groups: &[ColumnRef], number: usize, item: BoundItem) -> Result<Slot, AllocError>
    ensures { IfOk result (λ slot. slot ≡ slot_of groups.now number item) }
{
    match item {
        BoundItem::Column(r) => Ok(Slot::Key(short(group_place(groups, r))?)),
        BoundItem::Count => Ok(Slot::Measure(short(number)?)),
        BoundItem::Sum(_) => Ok(Slot::Measure(short(number)?)),
        BoundItem::Average(_) => Ok(Slot::Measure(short(number)?)),
        BoundItem::Least(_) => Ok(Slot::Measure(short(number)?)),
        BoundItem::Greatest(_) => Ok(Slot::Measure(short(number)?)),
    }
}

// The slots of a plain query: each item is read of the key.
fn key_slots(alloc: Global, items: &[BoundItem]) -> Result<List<Slot>, AllocError>
    ensures { IfOk result (λ slots. slots ≡ map (λ p. Key p.0) (numbered items.now)) }
{
    let mut slots = Vec::with_capacity(alloc, items.len())?;
    for (at, _item) in items.iter().enumerate() {
        slots.push(Slot::Key(short(at)?))?;
    }
    Ok(List::from_vec(slots))
}

// The slots of a line of a group.
fn group_slots(
    alloc: Global,
    groups: &[ColumnRef],
    items: &[BoundItem],
) -> Result<List<Slot>, AllocError>
    ensures { IfOk result (λ slots. slots ≡ map (λ p. slot_of groups.now p.0 p.1) (numbered_from 1 items.now)) }
{
    let mut slots = Vec::with_capacity(alloc, items.len())?;
    for (at, item) in items.iter().enumerate() {
        slots.push(slot_of(groups, at + 1, *item)?)?;
    }
    Ok(List::from_vec(slots))
}

// The slots of a line.
fn slots_of(alloc: Global, query: &Query, plain: bool) -> Result<List<Slot>, AllocError>
    ensures { IfOk result (λ slots. slots ≡ slots_if plain query.now) }
{
    let items = query.items.as_slice();
    if plain {
        key_slots(alloc, items)
    } else {
        group_slots(alloc, query.groups.as_slice(), items)
    }
}

// The keys of the lines' order.
fn line_order(alloc: Global, order: &[BoundOrder]) -> Result<List<LineOrder>, AllocError>
    ensures { IfOk result (λ keys. keys ≡ map (λ o. record { slot = o.item; falling = o.falling }) order.now) }
{
    let mut keys = Vec::with_capacity(alloc, order.len())?;
    for key in order {
        keys.push(LineOrder {
            slot: key.item,
            falling: key.falling,
        })?;
    }
    Ok(List::from_vec(keys))
}

// How the groups of a query give lines.
pub(crate) fn finish_of(alloc: Global, query: &Query) -> Result<Finish, AllocError>
    ensures { IfOk result (λ finish. finish ≡ finish_of query.now) }
{
    let plain = is_plain(query);
    let names = query.names.copy(alloc)?;
    let slots = slots_of(alloc, query, plain)?;
    let order = line_order(alloc, query.order.as_slice())?;
    Ok(Finish {
        names,
        slots,
        order,
        limit: query.limit,
        repeat: plain,
        single: is_single(query),
    })
}
