// Which rows are live, by the rules of index sets.
ghost use Rattle.std.specs.Prelude.{◌≡◌, ◌<◌, ◌≤◌, ◌^◌, ◌-◌, ◌+◌, IfOk, length};
ghost use Rattle.gl_indexset.specs.Kept.{AreKnown, rules_of};

use gl_base::{Items, Joint, Text};
use gl_fields::FieldMap;
use gl_indexset::{IndexSets, Row, SetRule, Steps};
use std::alloc::{AllocError, Global};
use std::marker::Brand;
use std::sync::ledger::{Blank, Ledger};
use std::test::Fail;

// A set's name, how many rows and how many milliseconds an index has, and how many indexes are kept.
type Set = (&'static str, u64, u64, u64);

// A row's moment, and its sets.
type Stored = (u64, &'static [&'static str]);

// Sets, the rows that come at the positions from 0 on, and what is live then.
struct Case {
    sets: &'static [Set],
    rows: &'static [Stored],
    live: &'static [u64],
    indexes: &'static [(&'static str, u64)],
}

fn with_sets(alloc: Global, sets: &[Set]) -> Result<IndexSets, AllocError>
    ensures { IfOk result (λ all. all.next ≡ 0) }
{
    let mut all = IndexSets::new(alloc);
    for set in sets {
        let (name, max_docs, max_ms, keep) = *set;
        if !all.has_set(name) {
            all.add_set(SetRule {
                name: Text::from_str(alloc, name)?,
                max_docs,
                max_ms,
                keep,
            })?;
        }
    }
    Ok(all)
}

// The names of those of these sets that are there.
fn names(alloc: Global, all: &IndexSets, names: &[&str]) -> Result<Items<Text>, AllocError>
    ensures { IfOk result (λ found. AreKnown (rules_of all.now) found) }
{
    let mut found = Items::new(alloc);
    for name in names {
        if all.has_set(name) {
            found.push(Text::from_str(alloc, name)?)?;
        }
    }
    Ok(found)
}

fn row(alloc: Global, all: &IndexSets, position: u64, stored: &Stored) -> Result<Row, AllocError>
    ensures position { IfOk result (λ row. row.position ≡ position) }
    ensures known { IfOk result (λ row. AreKnown (rules_of all.now) row.sets) }
{
    Ok(Row {
        position,
        moment: stored.0,
        streams: Joint::new(alloc, Items::new(alloc))?,
        sets: Joint::new(alloc, names(alloc, all, stored.1)?)?,
        fields: Joint::new(alloc, FieldMap::new(alloc))?,
    })
}

// Stores a row at a position, and makes room for it.
fn put(all: &mut IndexSets, alloc: Global, position: u64, stored: &Stored) -> Result<(), AllocError>
    requires above { all.old.next ≤ position }
    requires counted { position < 2 ^ 64 - 1 }
    ensures { all.new.next ≤ position + 1 }
{
    let row = row(alloc, all, position, stored)?;
    let mut rows = Vec::new(alloc);
    rows.push(row)?;
    all.reserve(rows.as_slice())?;
    if let Some(row) = rows.pop() {
        all.store(row);
    }
    Ok(())
}

fn filled(alloc: Global, sets: &[Set], rows: &[Stored]) -> Result<IndexSets, AllocError>
    ensures { IfOk result (λ all. all.next ≤ length rows.now) }
{
    let mut all = with_sets(alloc, sets)?;
    for (at, stored) in rows.iter().enumerate() {
        put(&mut all, alloc, at as u64, stored)?;
    }
    Ok(all)
}

// The positions of the live rows.
fn live_from<L: Ledger>(
    alloc: Global,
    all: &IndexSets,
    blank: Blank,
) -> Result<Vec<u64>, AllocError>
    requires name { blank.name ≡ L.name }
    requires parts { blank.parts ≡ L.parts }
    requires some { 0 < L.parts }
{
    let mut steps = Steps::<L>::new(blank);
    let mut positions = Vec::new(alloc);
    for n in 0..all.live_len() {
        positions.push(all.row(n, &mut steps).position)?;
    }
    Ok(positions)
}

fn live(alloc: Global, all: &IndexSets) -> Result<Vec<u64>, AllocError> {
    live_from::<Brand>(alloc, all, Blank::new(1))
}

// Whether the live indexes have these names and rows.
fn is_summary(all: &IndexSets, wanted: &[(&str, u64)]) -> Result<bool, AllocError> {
    let found = all.summary()?;
    Ok(
        found.len() == wanted.len()
            && found.as_slice().iter().zip(wanted).all(|(index, other)| index.0.as_str() == other.0
                && index.1 == other.1),
    )
}

fn is_case(alloc: Global, case: &Case) -> Result<bool, AllocError> {
    let all = filled(alloc, case.sets, case.rows)?;
    Ok(live(alloc, &all)?.as_slice() == case.live && is_summary(&all, case.indexes)?)
}

const CASES: [Case; 12] = [
    // Two rows an index and two indexes.
    Case {
        sets: &[("a", 2, 0, 2)],
        rows: &[(100, &["a"]), (100, &["a"]), (100, &["a"]), (100, &["a"])],
        live: &[0, 1, 2, 3],
        indexes: &[("a_0", 2), ("a_1", 2)],
    },
    // Of five rows the last three are live; a row that names a set twice is in it once.
    Case {
        sets: &[("a", 2, 0, 2)],
        rows: &[
            (100, &["a", "a"]),
            (100, &["a", "a"]),
            (100, &["a", "a"]),
            (100, &["a", "a"]),
            (100, &["a", "a"]),
        ],
        live: &[2, 3, 4],
        indexes: &[("a_1", 2), ("a_2", 1)],
    },
    // An index of one second.
    Case {
        sets: &[("a", 0, 1000, 1)],
        rows: &[(100, &["a"]), (1099, &["a"])],
        live: &[0, 1],
        indexes: &[("a_0", 2)],
    },
    // The row that comes a second after its first begins a new one.
    Case {
        sets: &[("a", 0, 1000, 1)],
        rows: &[(100, &["a"]), (1099, &["a"]), (1100, &["a"])],
        live: &[2],
        indexes: &[("a_1", 1)],
    },
    // One row an index and one index: the last row is live.
    Case {
        sets: &[("a", 1, 0, 1)],
        rows: &[(100, &["a"]), (90, &["a"]), (200, &["a"])],
        live: &[2],
        indexes: &[("a_2", 1)],
    },
    // A moment that falls begins no index, and the first row's counts.
    Case {
        sets: &[("a", 0, 10, 2)],
        rows: &[
            (100, &["a"]),
            (5, &["a"]),
            (109, &["a"]),
            (110, &["a"]),
            (119, &["a"]),
            (120, &["a"]),
        ],
        live: &[3, 4, 5],
        indexes: &[("a_1", 2), ("a_2", 1)],
    },
    // A set begins with an empty index.
    Case {
        sets: &[("a", 2, 0, 2)],
        rows: &[],
        live: &[],
        indexes: &[("a_0", 0)],
    },
    // A set may keep none.
    Case {
        sets: &[("a", 1, 0, 0)],
        rows: &[(100, &["a"]), (100, &["a"])],
        live: &[],
        indexes: &[],
    },
    // Two sets with rules of their own: the next row in both drops the second row, and the first stays in `b`.
    Case {
        sets: &[("b", 1, 0, 3), ("a", 2, 0, 1)],
        rows: &[(100, &["a", "b"]), (100, &["a"])],
        live: &[0, 1],
        indexes: &[("a_0", 2), ("b_0", 1)],
    },
    // A row is live while one of its sets keeps it.
    Case {
        sets: &[("b", 1, 0, 3), ("a", 2, 0, 1)],
        rows: &[(100, &["a", "b"]), (100, &["a"]), (100, &["a", "b"])],
        live: &[0, 2],
        indexes: &[("a_1", 1), ("b_0", 1), ("b_1", 1)],
    },
    // The same, a while later.
    Case {
        sets: &[("b", 1, 0, 3), ("a", 2, 0, 1)],
        rows: &[
            (100, &["a", "b"]),
            (100, &["a"]),
            (100, &["a", "b"]),
            (100, &["b"]),
            (100, &["b"]),
            (100, &["b"]),
        ],
        live: &[2, 3, 4, 5],
        indexes: &[("a_1", 1), ("b_2", 1), ("b_3", 1), ("b_4", 1)],
    },
    // A row in three sets is live once, and counts in each.
    Case {
        sets: &[("c", 1, 0, 3), ("a", 1, 0, 1), ("b", 2, 0, 1)],
        rows: &[
            (100, &["a", "b", "c"]),
            (100, &["a", "b", "c"]),
            (100, &["a", "b", "c"]),
            (100, &["a", "b", "c"]),
        ],
        live: &[1, 2, 3],
        indexes: &[("a_3", 1), ("b_1", 2), ("c_1", 1), ("c_2", 1), ("c_3", 1)],
    },
];

#[test]
fn what_is_live_follows_the_rules(rt: HostRuntime) -> Result<(), Fail> {
    for case in &CASES {
        assert!(rt; is_case(rt.alloc(), case)?);
    }
    Ok(())
}

// What leaves where this row comes next, from each of these places on.
fn are_leaving(
    alloc: Global,
    case: &Case,
    next: &Stored,
    wanted: [Option<u64>; 3],
) -> Result<bool, AllocError> {
    let all = filled(alloc, case.sets, case.rows)?;
    let row = row(alloc, &all, case.rows.len() as u64, next)?;
    Ok(
        all.next_leaving(&row, 0) == wanted[0]
            && all.next_leaving(&row, 1) == wanted[1]
            && all.next_leaving(&row, 2) == wanted[2],
    )
}

// The fifth row drops the first two. What another set keeps stays.
#[test]
fn rows_are_named_before_they_leave(rt: HostRuntime) -> Result<(), Fail> {
    let alloc = rt.alloc();
    let next = (100, ["a", "b"].as_slice());
    assert!(rt; are_leaving(alloc, &CASES[0], &next, [Some(0), Some(1), None])?);
    assert!(rt; are_leaving(alloc, &CASES[8], &next, [Some(1), Some(1), None])?);
    Ok(())
}
