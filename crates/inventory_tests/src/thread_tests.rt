//! A book and a mirror, and what they hand out and take, may go to another thread.

use collector_core::{Answer, Book, BookError, Changed};
use std::test::Fail;
use swima_model::{Kind, Point, Records, Report};
use validator_core::{Mirror, Taken};

/// Takes what may go to another thread.
fn expect_send<T: Send + Drop>(_value: T) {}

const POINT: Point = Point { epoch: 7, eid: 0 };

#[test]
fn books_may_go_to_another_thread(rt: HostRuntime) -> Result<(), Fail> {
    expect_send::<Book>(Book::new(rt.alloc(), 7, 4, &[])?);
    expect_send::<Answer>(Answer::Memory);
    expect_send::<Changed>(Changed {
        point: POINT,
        id: 0,
    });
    expect_send::<BookError>(BookError::Memory);
    Ok(())
}

#[test]
fn mirrors_and_reports_may_go_to_another_thread(rt: HostRuntime) {
    expect_send::<Report>(Report::Inventory {
        kind: Kind::Full,
        fulfil: false,
        id: 1,
        point: POINT,
        records: Records::new(rt.alloc()),
    });
    expect_send::<Mirror>(Mirror::new(rt.alloc(), Kind::Full));
    expect_send::<Taken>(Taken::Adopted);
}
