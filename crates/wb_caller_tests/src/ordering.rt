//! A list from elsewhere is ordered once it is known to have no name twice.

use std::alloc::{AllocError, Global};
use wb_display::{is_history, order};
use wb_names::{Drawop, Name, PageId, Shape};

const PAGE: PageId = PageId {
    creator: 7,
    number: 1,
};

/// A text of this source on the page, drawn at this time.
fn text(source: u32, time: u64) -> Option<Drawop> {
    let name = Name::new(source, PAGE, 1).ok()?;
    let text = Shape::Text {
        x: 1,
        y: 1,
        bytes: b"ab",
    };
    Drawop::new(name, time, text).ok()
}

/// What the page shows of a list, or None if a name stands in it twice.
fn order_checked(alloc: Global, list: &[Drawop]) -> Result<Option<Vec<Drawop>>, AllocError> {
    if is_history(alloc, list)? {
        Ok(Some(order(alloc, list, PAGE)?))
    } else {
        Ok(None)
    }
}

fn all_goes_well(alloc: Global) -> Option<bool> {
    let (late, early) = (text(8, 20)?, text(9, 10)?);
    let ordered = order_checked(alloc, &[late, early]).ok()??;
    let twice = order_checked(alloc, &[late, late]).ok()?;
    Some(ordered.as_slice() == [early, late].as_slice() && twice.is_none())
}

#[test]
fn a_list_from_elsewhere_is_ordered(rt: HostRuntime) {
    assert!(rt; all_goes_well(rt.alloc()) == Some(true));
}
