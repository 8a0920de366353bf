// SPDX-License-Identifier: MIT
//! A worked numbering, the limits, and the texts of faults.

use po_unit::{Decl, EntryRef, IndexError, Shape, ShapeError};
use std::alloc::Global;
use std::fmt::Write;
use std::test::Fail;

const NULL_FAMILY: Decl = Decl {
    public: true,
    family: true,
    low: 3,
    high: 1,
};

const DECLS: [Decl; 4] = [
    Decl {
        public: true,
        family: false,
        low: 0,
        high: 0,
    },
    NULL_FAMILY,
    Decl {
        public: false,
        family: true,
        low: -1,
        high: 1,
    },
    Decl {
        public: false,
        family: false,
        low: 0,
        high: 0,
    },
];

/// Returns a reference to an entry.
fn entry(entry: u16, index: Option<i32>) -> EntryRef {
    EntryRef {
        declaration: entry,
        index,
    }
}

#[test]
fn numbers_entries(rt: HostRuntime) -> Result<(), Fail> {
    let shape = Shape::new(rt.alloc(), &DECLS)?;
    let numbered = [
        (0, entry(0, None), true),
        (1, entry(2, Some(-1)), false),
        (3, entry(2, Some(1)), false),
        (4, entry(3, None), false),
    ];
    for (number, reference, public) in numbered {
        assert_eq!(rt; shape.flat(reference), Ok(number));
        assert!(rt; number < shape.total());
        assert_eq!(rt;
            (shape.of_flat(number), shape.is_public(number)),
            (reference, public)
        );
    }
    assert_eq!(rt;
        (shape.total(), shape.decl(1), shape.decl(4)),
        (5, Some(NULL_FAMILY), None)
    );
    Ok(())
}

#[test]
fn refuses_references(rt: HostRuntime) -> Result<(), Fail> {
    let shape = Shape::new(rt.alloc(), &DECLS)?;
    let flat = [
        shape.flat(entry(4, Some(0))),
        shape.flat(entry(0, Some(0))),
        shape.flat(entry(1, None)),
        shape.flat(entry(1, Some(2))),
    ];
    let refused = [
        Err(IndexError::NoSuchEntry),
        Err(IndexError::NotAFamily),
        Err(IndexError::IndexMissing),
        Err(IndexError::BadIndex),
    ];
    assert_eq!(rt; flat, refused);
    Ok(())
}

/// Returns how many entries a shape of these declarations has.
fn total_of(alloc: Global, decls: &[Decl]) -> Result<u16, ShapeError> {
    Ok(Shape::new(alloc, decls)?.total())
}

#[test]
fn keeps_limits(rt: HostRuntime) -> Result<(), Fail> {
    let alloc = rt.alloc();
    let more = vec![in alloc; NULL_FAMILY; 4097]?;
    let wide = Decl {
        low: -5,
        high: 4090,
        ..NULL_FAMILY
    };
    let widest = Decl {
        low: i32::MIN,
        high: i32::MAX,
        ..NULL_FAMILY
    };
    let totals = [
        total_of(alloc, &[]),
        total_of(alloc, &more[..4096]),
        total_of(alloc, &more),
        total_of(alloc, &[wide]),
        total_of(alloc, &[wide, DECLS[0]]),
        total_of(alloc, &[widest]),
    ];
    let too_many = Err(ShapeError::TooManyEntries);
    assert_eq!(rt;
        totals,
        [Ok(0), Ok(0), too_many, Ok(4096), too_many, too_many]
    );
    Ok(())
}

#[test]
fn writes_faults(rt: HostRuntime) -> Result<(), Fail> {
    let mut text = String::new(rt.alloc());
    for fault in [ShapeError::TooManyEntries, ShapeError::OutOfMemory] {
        write!(text, "{} {fault}; ", fault.number())?;
    }
    for fault in [
        IndexError::NoSuchEntry,
        IndexError::NotAFamily,
        IndexError::IndexMissing,
        IndexError::BadIndex,
    ] {
        write!(text, "{} {fault}; ", fault.number())?;
    }
    assert_eq!(rt;
        text.as_str(),
        "1 more than 4,096 declarations or entries; 2 out of memory; \
         1 there is no such entry; 2 an index was given to a single entry; \
         3 a family of entries was named without an index; 4 the index is outside the family's range; "
    );
    Ok(())
}
