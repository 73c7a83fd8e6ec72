//! Each call, with ample memory.

use crate::{KnownFault, TextFault, is_printable, read_bytes, read_known, show_bytes, show_known};
use base::{List, NoMemory, Text};
use schema::{Item, Known, Slot, Value};
use std::alloc::Global;
use std::test::Fail;

#[test]
fn bytes_are_read_and_shown(rt: HostRuntime) -> Result<(), Fail> {
    for text in [b"Zm9v".as_slice(), b"Zm8=", b"Zm8", b"-/8=", b""] {
        assert!(rt; read_bytes(rt.alloc(), text).is_ok());
    }
    let bytes = read_bytes(rt.alloc(), b"-_8")?;
    assert_eq!(rt; bytes.as_slice(), b"\xfb\xff".as_slice());
    let mut out = Vec::from_slice(rt.alloc(), b"\"")?;
    show_bytes(bytes.as_slice(), &mut out)?;
    assert_eq!(rt; out.as_slice(), b"\"+/8=".as_slice());
    Ok(())
}

#[test]
fn a_text_of_another_form_is_refused(rt: HostRuntime) {
    assert!(rt; matches!(&read_bytes(rt.alloc(), b"-_9"), Err(TextFault::BadText)));
    assert!(rt; matches!(&read_bytes(rt.alloc(), b"Zg="), Err(TextFault::BadText)));
}

#[test]
fn known_texts_are_read_and_shown(rt: HostRuntime) -> Result<(), Fail> {
    let time = read_known(rt.alloc(), Known::Timestamp, b"1970-01-01T00:00:01.5+00:00")?;
    assert!(rt; matches!(time.get(1), Some(Slot::One(Item::Number(1)))));
    assert!(rt; matches!(time.get(2), Some(Slot::One(Item::Number(500_000_000)))));
    let length = read_known(rt.alloc(), Known::Duration, b"-2s")?;
    assert!(rt; length.get(2).is_none());
    let mask = read_known(rt.alloc(), Known::FieldMask, b"a,bC")?;
    let mut out = Vec::from_slice(rt.alloc(), b"\"")?;
    show_known(Known::Timestamp, &time, &mut out)?;
    show_known(Known::Duration, &length, &mut out)?;
    show_known(Known::FieldMask, &mask, &mut out)?;
    assert_eq!(rt;
        out.as_slice(),
        b"\"1970-01-01T00:00:01.500Z-2sa,bC".as_slice()
    );
    assert!(rt;
        read_known(rt.alloc(), Known::FieldMask, b"")?
            .fields()
            .is_empty()
    );
    Ok(())
}

#[test]
fn texts_of_no_value_are_refused(rt: HostRuntime) {
    assert!(rt;
        matches!(
            &read_known(rt.alloc(), Known::Duration, b"1970-01-01T00:00:00Z"),
            Err(TextFault::BadText)
        )
    );
    assert!(rt;
        matches!(
            &read_known(rt.alloc(), Known::Duration, b"315576000001s"),
            Err(TextFault::OutOfRange)
        )
    );
    assert!(rt;
        matches!(
            &read_known(rt.alloc(), Known::FieldMask, b"a_b"),
            Err(TextFault::BadText)
        )
    );
    assert!(rt;
        matches!(
            &read_known(rt.alloc(), Known::Wrapper, b"1s"),
            Err(TextFault::BadText)
        )
    );
}

/// A message with one number at field 1.
fn with_number(alloc: Global, number: i128) -> Result<Value, NoMemory> {
    let mut value = Value::new(alloc);
    value.set(1, Slot::One(Item::Number(number)))?;
    Ok(value)
}

#[test]
fn values_without_texts_are_refused(rt: HostRuntime) -> Result<(), Fail> {
    let far = with_number(rt.alloc(), 300_000_000_000)?;
    let mut out = Vec::from_slice(rt.alloc(), b"kept")?;
    assert!(rt; !is_printable(Known::Timestamp, &far));
    assert!(rt; show_known(Known::Timestamp, &far, &mut out) == Err(KnownFault::Unprintable));
    assert!(rt; is_printable(Known::Duration, &far));
    assert!(rt; !is_printable(Known::Duration, &with_number(rt.alloc(), 1 << 100)?));
    assert!(rt; !is_printable(Known::FieldMask, &far));
    assert!(rt; !is_printable(Known::Plain, &far));
    let mut paths = List::new(rt.alloc());
    paths.push(Item::Text(Text::new(rt.alloc())))?;
    let mut mask = Value::new(rt.alloc());
    mask.set(1, Slot::Many(paths))?;
    assert!(rt; show_known(Known::FieldMask, &mask, &mut out) == Err(KnownFault::Unprintable));
    assert_eq!(rt; out.as_slice(), b"kept".as_slice());
    Ok(())
}
