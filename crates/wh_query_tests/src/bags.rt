use std::alloc::Global;
use std::process::Abort;
use wh_bag::{AddFault, ApplyFault, Bag, Signed, apply, net};
use wh_value::{Row, Value};

// Numbers with their counts, by size.
type Counted<'a> = &'a [(i64, u64)];

fn row_of(rt: &impl Abort, alloc: Global, number: i64) -> Row {
    let mut row = Row::new(alloc);
    row.push(Value::Number(number)).expect(rt, "memory");
    row
}

fn bag_of(rt: &impl Abort, alloc: Global, rows: Counted<'_>) -> Bag {
    let mut bag = Bag::new(alloc);
    for (number, count) in rows {
        bag.add(row_of(rt, alloc, *number), *count)
            .map_err(|_| "not added")
            .expect(rt, "memory");
    }
    bag
}

// Whether the bag has these rows in this order, and no other.
fn has(rt: &impl Abort, alloc: Global, bag: &Bag, rows: Counted<'_>) -> bool {
    let mut wanted = rows.iter();
    for (row, times) in bag.iter() {
        let Some((number, count)) = wanted.next() else {
            return false;
        };
        let number = row_of(rt, alloc, *number);
        if *row != number || times.count() != *count || bag.count(row) != *count {
            return false;
        }
    }
    wanted.next().is_none()
}

#[test]
fn rows_are_counted_up_to_64_bits(rt: HostRuntime) {
    const MOST: u64 = u64::MAX;
    let alloc = rt.alloc();
    let mut bag = bag_of(&rt, alloc, &[(3, 1), (1, 2), (2, 0), (3, 4), (5, MOST - 1)]);
    assert_eq!(rt; bag.count(&row_of(&rt, alloc, 2)), 0);
    assert!(rt; !bag.is_empty());
    assert_eq!(rt; bag.add(row_of(&rt, alloc, 5), 1), Ok(()));
    assert_eq!(rt; bag.add(row_of(&rt, alloc, 5), 1), Err(AddFault::TooMany));
    assert!(rt; has(&rt, alloc, &bag, &[(1, 2), (3, 5), (5, MOST)]));
    assert!(rt; bag_of(&rt, alloc, &[(1, 0)]).is_empty());
}

// The signed rows of a change: those that are added, and those that are taken away.
fn signed(rt: &impl Abort, alloc: Global, plus: Counted<'_>, minus: Counted<'_>) -> Signed {
    Signed {
        plus: bag_of(rt, alloc, plus),
        minus: bag_of(rt, alloc, minus),
    }
}

const OLD: Counted<'static> = &[(1, 2), (2, u64::MAX), (4, 2)];

// What a change of the old rows leaves.
fn left(rt: &impl Abort, alloc: Global, change: &Signed) -> Result<Bag, ApplyFault> {
    apply(alloc, &bag_of(rt, alloc, OLD), change)
}

/// A name, the rows that are added, those that are taken away, and those that are left.
type Case = (
    &'static str,
    Counted<'static>,
    Counted<'static>,
    Counted<'static>,
);

// Whether a change leaves these rows.
fn leads(rt: &impl Abort, alloc: Global, case: &Case) -> bool {
    let (_, plus, minus, new) = case;
    let change = signed(rt, alloc, plus, minus);
    match left(rt, alloc, &change) {
        Ok(found) => has(rt, alloc, &found, new),
        Err(_) => false,
    }
}

// Whether the change between the old rows and others has these rows.
fn nets(rt: &impl Abort, alloc: Global, case: &Case) -> bool {
    let (_, plus, minus, new) = case;
    let old = bag_of(rt, alloc, OLD);
    let change = net(alloc, &old, &bag_of(rt, alloc, new)).expect(rt, "memory");
    has(rt, alloc, &change.plus, plus) && has(rt, alloc, &change.minus, minus)
}

#[test]
fn a_change_leads_from_one_bag_to_another(rt: HostRuntime) {
    const NET: &[Case] = &[
        ("nothing", &[], &[], OLD),
        (
            "rows of each side",
            &[(3, 2)],
            &[(1, 1), (4, 2)],
            &[(1, 1), (2, u64::MAX), (3, 2)],
        ),
        (
            "full, and one less",
            &[],
            &[(2, 1)],
            &[(1, 2), (2, u64::MAX - 1), (4, 2)],
        ),
    ];
    const ON_BOTH_SIDES: &[Case] = &[
        (
            "a row on both sides",
            &[(3, 5)],
            &[(1, 1), (3, 3)],
            &[(1, 1), (2, u64::MAX), (3, 2), (4, 2)],
        ),
        (
            "full, and one less",
            &[(2, 4)],
            &[(2, 5)],
            &[(1, 2), (2, u64::MAX - 1), (4, 2)],
        ),
    ];
    let alloc = rt.alloc();
    for case in NET {
        assert!(rt;
            leads(&rt, alloc, case) && nets(&rt, alloc, case),
            "{}",
            case.0
        );
    }
    for case in ON_BOTH_SIDES {
        assert!(rt; leads(&rt, alloc, case), "{}", case.0);
    }
    let too_many = signed(&rt, alloc, &[(2, 5)], &[(2, 4)]);
    assert!(rt; matches!(left(&rt, alloc, &too_many), Err(ApplyFault::TooMany)));
    let missing = signed(&rt, alloc, &[(1, 1)], &[(1, 4)]);
    assert!(rt; matches!(left(&rt, alloc, &missing), Err(ApplyFault::Missing)));
}
