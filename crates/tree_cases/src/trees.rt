//! Worked examples: plans of puts, and paths, over a few pages in memory.
ghost use Rattle.std.specs.Prelude.{◌≡◌, ℕ, Option, find, nat_eq};
ghost use Rattle.std.specs.Option.{option_copied};
ghost use Rattle.tm_data.specs.declared.image.Image.{Image};

use row_tree::{FindError, Pages, Plan, PlanError, find, plan_put};
use std::alloc::Global;
use std::test::Fail;
use tm_base::{
    Before, Body, Child, ChildList, Image, ItemList, Key, Keyed, KeyedList, Mem, Page, Record, Row,
    RowList, Stamp, Txn, Value, Writer,
};

/// A few pages.
#[derive(Drop)]
struct Few {
    images: Vec<Image>,
}

impl Pages for Few {
    ghost images = { λ few page. find (λ (i : Image). nat_eq i.page.0 page) few.images.items };

    fn image(&self, page: Page) -> Option<&Image> {
        self.images.iter().find(|image| image.page.0 == page.0)
    }
}

fn row(alloc: Global, key: u8, size: usize) -> Result<Row, Fail> {
    let value = vec![in alloc; 0xaa; size]?;
    Ok(Row {
        key: Key::new(alloc, &[0, key])?,
        txn: Txn {
            writer: Writer(1),
            number: 1,
        },
        now: Some(Value::new(alloc, value.as_slice())?),
        before: Before::Same,
    })
}

/// Puts an item into its place.
fn put_in<T: Keyed + Drop>(items: &mut KeyedList<T>, item: T) -> Mem<()> {
    let place = items.place(item.key());
    items.set(item, place)
}

/// A leaf of 8,192 bytes: fifteen rows of 527 bytes and one of 267.
fn full_leaf(alloc: Global) -> Result<Body, Fail> {
    let mut rows = RowList::new(alloc);
    for key in 1..16 {
        put_in(&mut rows, row(alloc, key, 512)?)?;
    }
    put_in(&mut rows, row(alloc, 16, 252)?)?;
    Ok(Body::Leaf {
        table: 1,
        low: None,
        high: None,
        rows,
    })
}

/// An inner page with so many entries of 69 bytes, 118 of which leave less than 69 bytes of room.
fn inner(alloc: Global, level: u8, count: u8) -> Result<Body, Fail> {
    let mut entries = ChildList::new(alloc);
    for at in 0..count {
        let mut bytes = [0; 64];
        bytes[1] = at;
        let key = Key::new(alloc, &bytes)?;
        put_in(&mut entries, Child { key, page: Page(9) })?;
    }
    Ok(Body::Inner {
        table: 1,
        level,
        low: None,
        high: None,
        first: Page(9),
        entries,
    })
}

/// Pages 1 and on, each the parent of the next, with stamps from 16 on: the last is a full leaf, and of
/// the others the named ones are full.
fn path_of(alloc: Global, full: &[bool]) -> Result<Few, Fail> {
    let mut images = Vec::new(alloc);
    let mut page = 1;
    let mut level = u8::try_from(full.len()).unwrap_or(0);
    for is_full in full {
        let count = if *is_full { 118 } else { 1 };
        images.push(Image {
            page: Page(page),
            stamp: Stamp(u64::from(page).saturating_add(15)),
            body: inner(alloc, level, count)?,
        })?;
        page = page.saturating_add(1);
        level = level.saturating_sub(1);
    }
    images.push(Image {
        page: Page(page),
        stamp: Stamp(u64::from(page).saturating_add(15)),
        body: full_leaf(alloc)?,
    })?;
    Ok(Few { images })
}

/// A record's kind, page and previous stamp.
fn shape(record: &Record) -> (char, u32, u64) {
    match record {
        Record::RowSet { page, prev, .. } => ('r', page.0, prev.0),
        Record::Cut { page, prev, .. } => ('c', page.0, prev.0),
        Record::Format { page, prev, .. } => ('f', page.0, prev.0),
        Record::NodeAdd { page, prev, .. } => ('n', page.0, prev.0),
        Record::End { .. } => ('e', 0, 0),
        Record::Beat => ('b', 0, 0),
    }
}

/// The shapes of a plan's records, with a dot behind each group.
fn shapes(alloc: Global, plan: &Plan) -> Result<Vec<(char, u32, u64)>, Fail> {
    let mut shapes = Vec::new(alloc);
    for group in plan.as_slice() {
        for record in group.as_slice() {
            shapes.push(shape(record))?;
        }
        shapes.push(('.', 0, 0))?;
    }
    Ok(shapes)
}

/// Puts a seventeenth row into the full leaf below such pages, with first stamp 100.
fn put(alloc: Global, full: &[bool], fresh: &[Page]) -> Result<Result<Plan, PlanError>, Fail> {
    let pages = path_of(alloc, full)?;
    let mut path = ItemList::new(alloc);
    for image in &pages.images {
        path.push(image.page)?;
    }
    let row = row(alloc, 17, 0)?;
    Ok(plan_put(alloc, &pages, &path, &row, fresh, Stamp(100)))
}

const FRESH: [Page; 3] = [Page(1025), Page(1026), Page(1027)];

/// The shapes of the plan below such pages.
fn shapes_below(alloc: Global, full: &[bool]) -> Result<Vec<(char, u32, u64)>, Fail> {
    let Ok(plan) = put(alloc, full, &FRESH)? else {
        return Err(Fail::from("a plan"));
    };
    shapes(alloc, &plan)
}

const ROOT: [(char, u32, u64); 6] = [
    ('f', 1, 16),
    ('f', 1025, 0),
    ('f', 1026, 0),
    ('.', 0, 0),
    ('r', 1026, 100),
    ('.', 0, 0),
];

const LEAF: [(char, u32, u64); 6] = [
    ('n', 1, 16),
    ('c', 2, 17),
    ('f', 1025, 0),
    ('.', 0, 0),
    ('r', 1025, 100),
    ('.', 0, 0),
];

const LEAF_AND_ROOT: [(char, u32, u64); 10] = [
    ('f', 1, 16),
    ('f', 1025, 0),
    ('f', 1026, 0),
    ('.', 0, 0),
    ('c', 2, 17),
    ('n', 1025, 100),
    ('f', 1027, 0),
    ('.', 0, 0),
    ('r', 1027, 101),
    ('.', 0, 0),
];

const THREE_LEVELS: [(char, u32, u64); 14] = [
    ('n', 1, 16),
    ('c', 2, 17),
    ('f', 1025, 0),
    ('.', 0, 0),
    ('n', 2, 100),
    ('c', 3, 18),
    ('f', 1026, 0),
    ('.', 0, 0),
    ('n', 3, 101),
    ('c', 4, 19),
    ('f', 1027, 0),
    ('.', 0, 0),
    ('r', 1027, 102),
    ('.', 0, 0),
];

#[test]
fn pages_split_from_the_top_down(rt: HostRuntime) -> Result<(), Fail> {
    let alloc = rt.alloc();
    assert_eq!(rt; shapes_below(alloc, &[])?.as_slice(), ROOT.as_slice());
    assert_eq!(rt; shapes_below(alloc, &[false])?.as_slice(), LEAF.as_slice());
    assert_eq!(rt;
        shapes_below(alloc, &[true])?.as_slice(),
        LEAF_AND_ROOT.as_slice()
    );
    assert_eq!(rt;
        shapes_below(alloc, &[false, true, true])?.as_slice(),
        THREE_LEVELS.as_slice()
    );
    Ok(())
}

#[test]
fn a_plan_is_refused_by_height_and_by_fresh_pages(rt: HostRuntime) -> Result<(), Fail> {
    let Err(PlanError::Fresh { wanting: 1 }) = put(rt.alloc(), &[], &[Page(1025)])? else {
        return Err(Fail::from("one fresh page is wanting"));
    };
    let Err(PlanError::Height) = put(rt.alloc(), &[true, true, true, true, true], &[])? else {
        return Err(Fail::from("a root of level 5"));
    };
    Ok(())
}

/// How many rows and which page the second record of a plan's first group has.
fn left_half(plan: &Plan) -> Option<(u32, usize)> {
    let records = plan.get(0)?;
    let Record::Format {
        page,
        body: Body::Leaf { rows, .. },
        ..
    } = records.get(1)?
    else {
        return None;
    };
    Some((page.0, rows.len()))
}

#[test]
fn a_full_root_splits_after_its_eighth_row(rt: HostRuntime) -> Result<(), Fail> {
    let Ok(plan) = put(rt.alloc(), &[], &FRESH)? else {
        return Err(Fail::from("a plan"));
    };
    assert_eq!(rt; left_half(&plan), Some((1025, 8)));
    Ok(())
}

fn fence(alloc: Global, key: Option<u8>) -> Result<Option<Key>, Fail> {
    match key {
        Some(byte) => Ok(Some(Key::new(alloc, &[byte])?)),
        None => Ok(None),
    }
}

fn leaf(alloc: Global, page: u32, low: Option<u8>, high: Option<u8>) -> Result<Image, Fail> {
    let low = fence(alloc, low)?;
    let high = fence(alloc, high)?;
    Ok(Image {
        page: Page(page),
        stamp: Stamp(1),
        body: Body::Leaf {
            table: 1,
            low,
            high,
            rows: RowList::new(alloc),
        },
    })
}

/// The root of a table over leaf 2 and, from key 5 on, leaf 3.
fn root(alloc: Global) -> Result<Image, Fail> {
    let mut entries = ChildList::new(alloc);
    entries.push(Child {
        key: Key::new(alloc, &[5])?,
        page: Page(3),
    })?;
    Ok(Image {
        page: Page(1),
        stamp: Stamp(1),
        body: Body::Inner {
            table: 1,
            level: 1,
            low: None,
            high: None,
            first: Page(2),
            entries,
        },
    })
}

#[test]
fn a_path_leads_to_the_leaf_or_names_what_is_wanting(rt: HostRuntime) -> Result<(), Fail> {
    let alloc = rt.alloc();
    let mut images = Vec::new(alloc);
    images.push(root(alloc)?)?;
    images.push(leaf(alloc, 2, None, Some(4))?)?;
    images.push(leaf(alloc, 3, Some(5), None)?)?;
    let pages = Few { images };
    let path = find(alloc, &pages, 1, &Key::new(alloc, &[5])?)?;
    assert_eq!(rt; path.as_slice(), [Page(1), Page(3)].as_slice());
    let Err(FindError::Need { page: Page(2) }) = find(alloc, &pages, 1, &Key::new(alloc, &[4])?)
    else {
        return Err(Fail::from("other fences"));
    };
    let Err(FindError::Need { page: Page(7) }) = find(alloc, &pages, 7, &Key::new(alloc, &[4])?)
    else {
        return Err(Fail::from("no root"));
    };
    Ok(())
}
