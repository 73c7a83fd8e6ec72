//! A query's parameters, and the bytes that a name or a value stands for.

use crate::decoding::decoded;
use crate::parameters::{Parameter, Parameters};
use std::test::Fail;

/// True where a parameter has this number, name and value.
fn is(parameter: Option<Parameter>, number: u32, name: &[u8], value: &[u8]) -> bool {
    match parameter {
        Some(p) => p.number == number && p.name == name && p.value == value,
        None => false,
    }
}

#[test]
fn empty_pieces_count(rt: HostRuntime) {
    let mut left = Parameters::of(b"&a=1&&b");
    assert!(rt; is(left.next(), 2, b"a", b"1"));
    assert!(rt; is(left.next(), 4, b"b", b""));
    assert!(rt; left.next().is_none());
}

#[test]
fn plus_is_a_space(rt: HostRuntime) -> Result<(), Fail> {
    let bytes = decoded(rt.alloc(), b"a+%2B%4")?;
    assert!(rt; bytes.as_slice() == b"a +%4".as_slice());
    Ok(())
}
