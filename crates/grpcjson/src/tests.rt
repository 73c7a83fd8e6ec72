//! Each adapter once over the real thing.

use crate::std_files::StdFiles;
use crate::std_streams::{StdSink, StdSource, Stream};
use gateway_run::{Files, Read, Sink, Source, Wrote};
use std::fs;
use std::test::Fail;

#[test]
fn files_are_read_from_any_offset(rt: HostRuntime) -> Result<(), Fail> {
    fs::write(&rt, "adapter.bin", "abcdef")?;
    let mut files = StdFiles::new(&rt);
    let mut piece = [0u8; 4];
    assert_eq!(rt; files.read("adapter.bin", 0, &mut piece), Read::Bytes(4));
    assert_eq!(rt; piece.as_slice(), b"abcd".as_slice());
    assert_eq!(rt; files.read("adapter.bin", 4, &mut piece), Read::Bytes(2));
    assert_eq!(rt; &piece[..2], b"ef".as_slice());
    for from in [6, 7] {
        assert_eq!(rt;
            files.read("adapter.bin", from, &mut piece),
            Read::End,
            "{from}"
        );
    }
    assert_eq!(rt; files.read("lost.bin", 0, &mut piece), Read::Failed);
    fs::remove_file(&rt, "adapter.bin")?;
    Ok(())
}

#[test]
fn a_source_ends_where_its_reader_does(rt: HostRuntime) -> Result<(), Fail> {
    fs::write(&rt, "source.bin", "abc")?;
    let mut source = StdSource::new(fs::open(&rt, "source.bin")?);
    let mut piece = [0u8; 2];
    assert_eq!(rt; source.read(&mut piece), Read::Bytes(2));
    assert_eq!(rt; piece.as_slice(), b"ab".as_slice());
    assert_eq!(rt; source.read(&mut piece), Read::Bytes(1));
    assert_eq!(rt; source.read(&mut piece), Read::End);
    fs::remove_file(&rt, "source.bin")?;
    Ok(())
}

#[test]
fn a_sink_takes_what_its_stream_takes(rt: HostRuntime) -> Result<(), Fail> {
    let mut sink = StdSink::new(Stream::Err(rt.stderr()));
    assert_eq!(rt; sink.write(b"a line on standard error\n"), Wrote::Taken(25));
    assert_eq!(rt; sink.write(b""), Wrote::Taken(0));
    Ok(())
}
