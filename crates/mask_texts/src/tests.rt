//! Both calls, with ample memory.

use crate::{MaskFault, MaskShowFault, read_mask, show_mask};
use base::{List, Text};
use schema::Item;
use std::test::Fail;

#[test]
fn masks_are_read_and_shown(rt: HostRuntime) -> Result<(), Fail> {
    let paths = read_mask(rt.alloc(), b"user.displayName,photo,*")?;
    assert_eq!(rt; paths.len(), 3);
    assert!(rt;
        matches!(paths.get(0), Some(Item::Text(path)) if path.as_str() == "user.display_name")
    );
    let mut out = Vec::from_slice(rt.alloc(), b"\"")?;
    show_mask(paths.as_slice(), &mut out)?;
    assert_eq!(rt; out.as_slice(), b"\"user.displayName,photo,*".as_slice());
    assert!(rt; read_mask(rt.alloc(), b"")?.is_empty());
    Ok(())
}

#[test]
fn texts_of_another_form_are_refused(rt: HostRuntime) {
    for text in [
        b"a,".as_slice(),
        b",a",
        b"a,,b",
        b",",
        b"user.display_name",
        b"a b",
        b"\xc3\xa9",
    ] {
        assert!(rt; matches!(&read_mask(rt.alloc(), text), Err(MaskFault::BadText)));
    }
}

#[test]
fn paths_without_a_text_are_refused(rt: HostRuntime) -> Result<(), Fail> {
    for path in ["", "fooBar", "foo_", "foo__bar", "foo_1", "foo_Bar", "a,b"] {
        let mut paths = List::new(rt.alloc());
        paths.push(Item::Text(Text::copy_of(rt.alloc(), "a")?))?;
        paths.push(Item::Text(Text::copy_of(rt.alloc(), path)?))?;
        let mut out = Vec::from_slice(rt.alloc(), b"kept")?;
        assert!(rt;
            matches!(
                show_mask(paths.as_slice(), &mut out),
                Err(MaskShowFault::Unprintable)
            )
        );
        assert_eq!(rt; out.as_slice(), b"kept".as_slice());
    }
    Ok(())
}
