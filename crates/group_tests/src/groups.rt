// Groups and their lines, with expected lines written by hand.
ghost use Rattle.std.specs.Prelude.{◌≡◌, ◌≤◌, ◌+◌, ◌*◌, ◌^◌, true, not, IfOk, IfSome, IsTrue, nat_abs};
ghost use Rattle.std.specs.List.{list_all, list_any};
ghost use Rattle.blink_lists.specs.declared.limits.TheConstants.{MOST_ROWS};
ghost use Rattle.late_decode.specs.Bounds.{is_key_slot, measure_within, slot_within};
ghost use Rattle.group_tests.specs.Taken.{taken, ArePartsOf, AreGroupsOf, AreGroups};

use blink_base::{Answer, Field, List, Row, Value, Word};
use late_decode::laws::{combinations_added, combinations_together, slots_stay_within};
use late_decode::{Finish, Formula, Groups, LineOrder, Measure, Part, Pick, Slot};
use std::alloc::{AllocError, Global};
use std::test::Fail;

/// How many combinations groups may have.
const MOST: u64 = 8_388_608;

/// How large the number of one combination may be.
const SIZE: u128 = 1_000_000_000_000_000_000_000_000_000_000;

// A value or a field, as it is written in a table.
#[derive(Clone, Copy)]
enum Item {
    Null,
    Int(i64),
    Sum(i128),
    Text(&'static str),
    Date(i64),
}

// A key, how many combinations come to it, their sum, and their bound.
type Added = (&'static [Item], u64, i128, Item);

// The value of an item, where it is one.
fn value_of(alloc: Global, item: Item) -> Result<Option<Value>, AllocError> {
    match item {
        Item::Int(number) => Ok(Some(Value::Int(number))),
        Item::Text(text) => Ok(Some(Value::Text(Word::from_str(alloc, text)?))),
        Item::Date(date) => Ok(Some(Value::Date(date))),
        _ => Ok(None),
    }
}

fn key_of(alloc: Global, items: &[Item]) -> Result<Row, AllocError> {
    let mut key = List::new(alloc);
    for item in items {
        if let Some(value) = value_of(alloc, *item)? {
            key.push(value)?;
        }
    }
    Ok(key)
}

// What is measured: each measure once.
fn measures(alloc: Global) -> Result<List<Measure>, AllocError>
    ensures { IfOk result (λ measures. measures ≡ taken) }
{
    let number = Formula::One(Pick::Fact(0));
    let measures = vec![in alloc;
        Measure::Count,
        Measure::Sum(number),
        Measure::Average(number),
        Measure::Least(Pick::Fact(0)),
        Measure::Greatest(Pick::Fact(0)),
    ]?;
    Ok(List::from_vec(measures))
}

// Parts of the measures.
fn parts_of(alloc: Global, count: u64, sum: i128, bound: Item) -> Result<List<Part>, AllocError>
    requires { nat_abs sum ≤ 10 ^ 30 * count }
    ensures { IfOk result (ArePartsOf count) }
{
    let least = value_of(alloc, bound)?;
    let greatest = value_of(alloc, bound)?;
    let parts = vec![in alloc;
        Part {
            count,
            sum: 0,
            bound: None
        },
        Part {
            count,
            sum,
            bound: None
        },
        Part {
            count,
            sum,
            bound: None
        },
        Part {
            count,
            sum: 0,
            bound: least
        },
        Part {
            count,
            sum: 0,
            bound: greatest
        },
    ]?;
    Ok(List::from_vec(parts))
}

fn is_within(slot: Slot, key: &Row) -> bool
    ensures { result ≡ slot_within taken key.now slot }
{
    match slot {
        Slot::Key(at) => (at as usize) < key.len(),
        Slot::Measure(at) => at < 5,
    }
}

fn are_within(slots: &[Slot], key: &Row) -> bool
    ensures { result ≡ list_all (slot_within taken key.now) slots.now }
{
    slots.iter().all(|slot| is_within(*slot, key))
}

fn are_measures(slots: &[Slot]) -> bool
    ensures { result ≡ list_all (measure_within taken) slots.now }
{
    slots.iter().all(|slot| match slot {
        Slot::Key(_) => true,
        Slot::Measure(at) => *at < 5,
    })
}

fn has_key_slot(slots: &[Slot]) -> bool
    ensures { result ≡ list_any is_key_slot slots.now }
{
    slots.iter().any(|slot| matches!(slot, Slot::Key(_)))
}

// Adds parts, where they may be added; how many combinations there are then.
fn add_to(
    alloc: Global,
    groups: &mut Groups,
    slots: &[Slot],
    used: u64,
    added: &Added,
) -> Result<Option<u64>, AllocError>
    requires { AreGroupsOf slots.now used groups.old }
    ensures { IfOk result (λ now. IfSome now (λ used. AreGroupsOf slots.now used groups.new)) }
{
    let (items, count, sum, bound) = *added;
    let key = key_of(alloc, items)?;
    if count > MOST || used > MOST - count || !are_within(slots, &key) {
        return Ok(None);
    }
    if sum.unsigned_abs() > SIZE * count as u128 {
        return Ok(None);
    }
    combinations_together();
    groups.add(alloc, key, parts_of(alloc, count, sum, bound)?)?;
    combinations_added();
    slots_stay_within();
    Ok(Some(used + count))
}

// The groups of what is added, where all may be added and the slots are in range.
fn groups_of(alloc: Global, slots: &[Slot], all: &[Added]) -> Result<Option<Groups>, AllocError>
    ensures { IfOk result (λ made. IfSome made (AreGroups slots.now)) }
{
    if !are_measures(slots) {
        return Ok(None);
    }
    let mut groups = Groups::new(alloc, measures(alloc)?);
    let mut used = 0;
    for added in all {
        match add_to(alloc, &mut groups, slots, used, added)? {
            Some(now) => used = now,
            None => return Ok(None),
        }
    }
    Ok(Some(groups))
}

// How the lines come.
fn finish_of(alloc: Global, case: &Case) -> Result<Finish, AllocError>
    ensures { IfOk result (λ finish. finish.slots ≡ case.now.slots.now) }
{
    let mut order = List::new(alloc);
    for (slot, falling) in case.order {
        order.push(LineOrder {
            slot: *slot,
            falling: *falling,
        })?;
    }
    Ok(Finish {
        names: List::from_vec(vec![in alloc; Word::from_str(alloc, "a name")?]?),
        slots: List::from_vec(Vec::from_slice(alloc, case.slots)?),
        order,
        limit: case.limit,
        repeat: case.repeat,
        single: case.single,
    })
}

// The answer of one case, where its calls may be made.
fn answer_of(alloc: Global, case: &Case) -> Result<Option<Answer>, AllocError> {
    let Some(groups) = groups_of(alloc, case.slots, case.added)? else {
        return Ok(None);
    };
    let finish = finish_of(alloc, case)?;
    if finish.single && has_key_slot(case.slots) {
        return Ok(None);
    }
    Ok(Some(groups.finish(alloc, &finish)?))
}

fn is_item(field: &Field, item: Item) -> bool {
    match (field, item) {
        (Field::Null, Item::Null) => true,
        (Field::Number(number), Item::Int(wanted)) => *number == wanted as i128,
        (Field::Number(number), Item::Sum(wanted)) => *number == wanted,
        (Field::Text(word), Item::Text(wanted)) => word.as_str() == wanted,
        (Field::Date(date), Item::Date(wanted)) => *date == wanted,
        _ => false,
    }
}

fn is_line(line: &List<Field>, wanted: &[Item]) -> bool {
    line.len() == wanted.len()
        && line
            .as_slice()
            .iter()
            .zip(wanted)
            .all(|(field, item)| is_item(field, *item))
}

// Whether the answer has the name and these lines.
fn is_answer(answer: &Answer, lines: &[&[Item]]) -> bool {
    let names = answer.names.as_slice();
    names.len() == 1
        && names[0].as_str() == "a name"
        && answer.lines.len() == lines.len()
        && answer
            .lines
            .as_slice()
            .iter()
            .zip(lines)
            .all(|(line, wanted)| is_line(line, wanted))
}

// What is added; the slots; the order; the limit; `repeat` and `single`; and the lines.
struct Case {
    added: &'static [Added],
    slots: &'static [Slot],
    order: &'static [(u32, bool)],
    limit: Option<u64>,
    repeat: bool,
    single: bool,
    lines: &'static [&'static [Item]],
}

const ALL_MEASURES: &[Slot] = &[
    Slot::Measure(0),
    Slot::Measure(1),
    Slot::Measure(2),
    Slot::Measure(3),
    Slot::Measure(4),
];

const KEY_AND_COUNT: &[Slot] = &[Slot::Key(0), Slot::Measure(0)];

const CASES: [Case; 12] = [
    // Each measure: 7 + -12 is -5, and by 2 it is -2, towards zero.
    Case {
        added: &[(&[], 1, 7, Item::Int(7)), (&[], 1, -12, Item::Int(-12))],
        slots: ALL_MEASURES,
        order: &[],
        limit: None,
        repeat: false,
        single: true,
        lines: &[&[
            Item::Int(2),
            Item::Int(-5),
            Item::Int(-2),
            Item::Int(-12),
            Item::Int(7),
        ]],
    },
    // Bounds of texts go by bytes; the later one is not the lesser, and a part without rows has none.
    Case {
        added: &[
            (&[Item::Int(1)], 1, 0, Item::Text("b")),
            (&[Item::Int(1)], 1, 0, Item::Text("Z")),
            (&[Item::Int(1)], 1, 0, Item::Text("a")),
            (&[Item::Int(1)], 0, 0, Item::Null),
        ],
        slots: ALL_MEASURES,
        order: &[],
        limit: None,
        repeat: false,
        single: false,
        lines: &[&[
            Item::Int(3),
            Item::Int(0),
            Item::Int(0),
            Item::Text("Z"),
            Item::Text("b"),
        ]],
    },
    // No rows and no GROUP BY.
    Case {
        added: &[],
        slots: ALL_MEASURES,
        order: &[],
        limit: None,
        repeat: false,
        single: true,
        lines: &[&[Item::Int(0), Item::Null, Item::Null, Item::Null, Item::Null]],
    },
    // No rows with GROUP BY.
    Case {
        added: &[],
        slots: KEY_AND_COUNT,
        order: &[],
        limit: None,
        repeat: false,
        single: false,
        lines: &[],
    },
    // Equal keys are one group, wherever they come; kinds of keys, in their order.
    Case {
        added: &[
            (&[Item::Date(20240229)], 1, 0, Item::Int(0)),
            (&[Item::Text("x")], 2, 0, Item::Int(0)),
            (&[Item::Int(-3)], 1, 0, Item::Int(0)),
            (&[Item::Text("x")], 3, 0, Item::Int(0)),
            (&[Item::Int(10)], 1, 0, Item::Int(0)),
            (&[Item::Text("X")], 1, 0, Item::Int(0)),
            (&[Item::Date(20240229)], 1, 0, Item::Int(0)),
        ],
        slots: KEY_AND_COUNT,
        order: &[],
        limit: None,
        repeat: false,
        single: false,
        lines: &[
            &[Item::Int(-3), Item::Int(1)],
            &[Item::Int(10), Item::Int(1)],
            &[Item::Text("X"), Item::Int(1)],
            &[Item::Text("x"), Item::Int(5)],
            &[Item::Date(20240229), Item::Int(2)],
        ],
    },
    // The least first, NULL last; a tie goes by the items.
    Case {
        added: &[
            (&[Item::Text("c")], 0, 0, Item::Null),
            (&[Item::Text("b")], 1, 0, Item::Int(2)),
            (&[Item::Text("a")], 1, 0, Item::Int(2)),
            (&[Item::Text("d")], 1, 0, Item::Int(1)),
        ],
        slots: &[Slot::Key(0), Slot::Measure(3)],
        order: &[(1, false)],
        limit: None,
        repeat: false,
        single: false,
        lines: &[
            &[Item::Text("d"), Item::Int(1)],
            &[Item::Text("a"), Item::Int(2)],
            &[Item::Text("b"), Item::Int(2)],
            &[Item::Text("c"), Item::Null],
        ],
    },
    // DESC: NULL first, and ties not turned round.
    Case {
        added: &[
            (&[Item::Text("c")], 0, 0, Item::Null),
            (&[Item::Text("b")], 1, 0, Item::Int(2)),
            (&[Item::Text("a")], 1, 0, Item::Int(2)),
            (&[Item::Text("d")], 1, 0, Item::Int(1)),
        ],
        slots: &[Slot::Key(0), Slot::Measure(3)],
        order: &[(1, true)],
        limit: None,
        repeat: false,
        single: false,
        lines: &[
            &[Item::Text("c"), Item::Null],
            &[Item::Text("a"), Item::Int(2)],
            &[Item::Text("b"), Item::Int(2)],
            &[Item::Text("d"), Item::Int(1)],
        ],
    },
    // LIMIT cuts what is ordered; two keys of the order, one of them DESC.
    Case {
        added: &[
            (&[Item::Int(1), Item::Int(1)], 1, 0, Item::Int(0)),
            (&[Item::Int(2), Item::Int(1)], 1, 0, Item::Int(0)),
            (&[Item::Int(1), Item::Int(2)], 1, 0, Item::Int(0)),
            (&[Item::Int(2), Item::Int(2)], 1, 0, Item::Int(0)),
        ],
        slots: &[Slot::Key(0), Slot::Key(1)],
        order: &[(1, true), (0, false)],
        limit: Some(3),
        repeat: false,
        single: false,
        lines: &[
            &[Item::Int(1), Item::Int(2)],
            &[Item::Int(2), Item::Int(2)],
            &[Item::Int(1), Item::Int(1)],
        ],
    },
    // LIMIT 0 cuts the line over no rows too.
    Case {
        added: &[],
        slots: ALL_MEASURES,
        order: &[],
        limit: Some(0),
        repeat: false,
        single: true,
        lines: &[],
    },
    // A limit beyond the lines, and beyond what a machine counts.
    Case {
        added: &[(&[Item::Int(5)], 1, 0, Item::Int(0))],
        slots: &[Slot::Key(0)],
        order: &[],
        limit: Some(18_446_744_073_709_551_615),
        repeat: false,
        single: false,
        lines: &[&[Item::Int(5)]],
    },
    // `repeat`: each group as often as it counts; a slot may stand twice.
    Case {
        added: &[
            (&[Item::Text("y"), Item::Int(2)], 3, 0, Item::Int(0)),
            (&[Item::Text("x"), Item::Int(1)], 1, 0, Item::Int(0)),
            (&[Item::Text("z"), Item::Int(0)], 0, 0, Item::Null),
        ],
        slots: &[Slot::Key(0), Slot::Key(1), Slot::Key(0)],
        order: &[(1, true)],
        limit: None,
        repeat: true,
        single: false,
        lines: &[
            &[Item::Text("y"), Item::Int(2), Item::Text("y")],
            &[Item::Text("y"), Item::Int(2), Item::Text("y")],
            &[Item::Text("y"), Item::Int(2), Item::Text("y")],
            &[Item::Text("x"), Item::Int(1), Item::Text("x")],
        ],
    },
    // Sums at their bounds: 2^23 combinations of 10^30 each, on both sides.
    Case {
        added: &[
            (
                &[Item::Int(1)],
                4_194_304,
                4_194_304_000_000_000_000_000_000_000_000_000_000,
                Item::Int(1),
            ),
            (
                &[Item::Int(2)],
                2_097_152,
                -2_097_152_000_000_000_000_000_000_000_000_000_000,
                Item::Int(2),
            ),
            (
                &[Item::Int(2)],
                2_097_152,
                -2_097_152_000_000_000_000_000_000_000_000_000_000,
                Item::Int(2),
            ),
        ],
        slots: &[Slot::Measure(1), Slot::Measure(2)],
        order: &[],
        limit: None,
        repeat: false,
        single: false,
        lines: &[
            &[
                Item::Sum(-4_194_304_000_000_000_000_000_000_000_000_000_000),
                Item::Sum(-1_000_000_000_000_000_000_000_000_000_000),
            ],
            &[
                Item::Sum(4_194_304_000_000_000_000_000_000_000_000_000_000),
                Item::Sum(1_000_000_000_000_000_000_000_000_000_000),
            ],
        ],
    },
];

#[test]
fn groups_give_their_lines(rt: HostRuntime) -> Result<(), Fail> {
    for case in &CASES {
        let answer = answer_of(rt.alloc(), case)?;
        assert!(rt; answer.is_some_and(|answer| is_answer(&answer, case.lines)));
    }
    Ok(())
}
