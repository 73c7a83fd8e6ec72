//! The ranges of the limits, at both sides of each number; a head that is filled twice.

use crate::body_length::BodyLength;
use crate::head::Head;
use crate::limits::Limits;
use std::test::Fail;

#[test]
fn limits_have_ranges(rt: HostRuntime) -> Result<(), Fail> {
    assert_eq!(rt; Limits::standard(64).streams(), 64);
    assert_eq!(rt; Limits::standard(2).streams(), 2);
    assert_eq!(rt; Limits::standard(1_024).streams(), 64);
    assert!(rt; Limits::new(1, 64, 64, 69).is_some());
    assert!(rt; Limits::new(1_024, 1_048_576, 1_048_576, 4_194_304).is_some());
    assert!(rt; Limits::new(0, 64, 64, 69).is_none());
    assert!(rt; Limits::new(1_025, 64, 64, 69).is_none());
    assert!(rt; Limits::new(1, 63, 64, 69).is_none());
    assert!(rt; Limits::new(1, 1_048_577, 64, 69).is_none());
    assert!(rt; Limits::new(1, 64, 63, 69).is_none());
    assert!(rt; Limits::new(1, 64, 1_048_577, 4_194_304).is_none());
    assert!(rt; Limits::new(1, 64, 64, 68).is_none());
    assert!(rt; Limits::new(1, 64, 64, 4_194_305).is_none());
    Ok(())
}

#[test]
fn a_head_is_filled_twice(rt: HostRuntime) -> Result<(), Fail> {
    let mut head = Head::reserved(rt.alloc(), 24, 2)?;
    head.begin(b"GET", b"/v1/items");
    head.field(b"Host", b"h");
    head.field(b"A", b"");
    head.finish(BodyLength::Length(3), true, true);
    assert!(rt; head.method() == b"GET".as_slice());
    assert!(rt; head.target() == b"/v1/items".as_slice());
    assert_eq!(rt; head.len(), 2);
    assert!(rt; head.name(0) == b"Host".as_slice());
    assert!(rt; head.value(0) == b"h".as_slice());
    assert!(rt; head.name(1) == b"A".as_slice());
    assert!(rt; head.value(1).is_empty());
    assert!(rt; head.body() == BodyLength::Length(3));
    assert!(rt; head.close() && head.expect());
    head.begin(b"PUT", b"/");
    assert!(rt; head.method() == b"PUT".as_slice());
    assert_eq!(rt; head.len(), 0);
    assert!(rt; head.body() == BodyLength::Nothing);
    assert!(rt; !head.close() && !head.expect());
    head.clear();
    assert!(rt; head.method().is_empty() && head.target().is_empty());
    Ok(())
}
