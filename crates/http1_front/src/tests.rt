//! The parts of one request, read byte by byte, and a head that is too large.

use crate::{Part, PartReader, PartState};
use std::test::Fail;

/// Offers each byte by itself.
fn read_each(reader: &mut PartReader, bytes: &[u8]) {
    for at in 0..bytes.len() {
        reader.read(&bytes[at..at + 1]);
    }
}

#[test]
fn parts_are_read_byte_by_byte(rt: HostRuntime) -> Result<(), Fail> {
    let mut reader = PartReader::new(rt.alloc())?;
    assert!(rt; reader.part() == Part::Head);
    read_each(&mut reader, b"\r\nGET / HTTP/1.1\r\nHost: h\n\r\n0;");
    assert!(rt; reader.state() == PartState::Whole);
    assert!(rt; reader.bytes() == b"\r\nGET / HTTP/1.1\r\nHost: h\n\r\n".as_slice());
    assert_eq!(rt; reader.lines(), 3);
    reader.begin(Part::SizeLine);
    assert!(rt; reader.state() == PartState::Open);
    read_each(&mut reader, b"0;x\r\na");
    assert!(rt; reader.bytes() == b"0;x\r\n".as_slice());
    reader.begin(Part::Trailers);
    assert_eq!(rt; reader.read(b"\r\nGET"), 2);
    assert!(rt; reader.state() == PartState::Whole);
    assert_eq!(rt; reader.lines(), 1);
    reader.begin(Part::Trailers);
    read_each(&mut reader, b"a: b\r\n\r\r\n\nc");
    assert!(rt; reader.bytes() == b"a: b\r\n\r\r\n\n".as_slice());
    assert_eq!(rt; reader.lines(), 3);
    Ok(())
}

#[test]
fn a_head_without_an_end_is_too_large(rt: HostRuntime) -> Result<(), Fail> {
    let piece = [b'\n'; 10_000];
    let mut reader = PartReader::new(rt.alloc())?;
    assert_eq!(rt; reader.read(&piece), 10_000);
    assert!(rt; reader.state() == PartState::Open);
    assert_eq!(rt; reader.read(&piece), 6_384);
    assert!(rt; reader.state() == PartState::TooLarge);
    assert_eq!(rt; reader.read(&piece), 0);
    assert_eq!(rt; reader.lines(), 0);
    Ok(())
}
