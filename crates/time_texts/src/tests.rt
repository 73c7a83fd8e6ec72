//! Each call, with ample memory.

use crate::{
    Moment, ShowFault, TimeFault, read_duration, read_timestamp, show_duration, show_timestamp,
};
use std::test::Fail;

fn is_duration(text: &[u8], seconds: i64, nanos: i32) -> bool {
    read_duration(text) == Ok(Moment { seconds, nanos })
}

fn is_timestamp(text: &[u8], seconds: i64, nanos: i32) -> bool {
    read_timestamp(text) == Ok(Moment { seconds, nanos })
}

#[test]
fn durations_are_read(rt: HostRuntime) {
    assert!(rt; is_duration(b"1.5s", 1, 500_000_000));
    assert!(rt; is_duration(b"-0.5s", 0, -500_000_000));
    assert!(rt; is_duration(b"-0s", 0, 0));
    assert!(rt; is_duration(b"00000000000000000000000007.000000001s", 7, 1));
    assert!(rt; is_duration(b"-315576000000.999999999s", -315_576_000_000, -999_999_999));
    assert!(rt; read_duration(b"315576000001s") == Err(TimeFault::OutOfRange));
    assert!(rt; read_duration(b"99999999999999999999999999s") == Err(TimeFault::OutOfRange));
    for text in [
        b"".as_slice(),
        b"s",
        b"1",
        b".5s",
        b"1.s",
        b"+1s",
        b"1.0000000000s",
        b"1ss",
        b"--1s",
        b"1 s",
    ] {
        assert!(rt; read_duration(text) == Err(TimeFault::BadText));
    }
}

#[test]
fn timestamps_are_read(rt: HostRuntime) {
    assert!(rt; is_timestamp(b"1970-01-01T00:00:00Z", 0, 0));
    assert!(rt; is_timestamp(b"1969-12-31T23:59:59.5Z", -1, 500_000_000));
    assert!(rt; is_timestamp(b"2024-02-29T12:00:00+01:30", 1_709_202_600, 0));
    assert!(rt; is_timestamp(b"0001-01-01T00:00:00Z", -62_135_596_800, 0));
    let last = b"9999-12-31T23:59:59.999999999Z";
    assert!(rt; is_timestamp(last, 253_402_300_799, 999_999_999));
}

#[test]
fn timestamps_are_refused(rt: HostRuntime) {
    assert!(rt; read_timestamp(b"0000-12-31T23:59:59-00:01") == Err(TimeFault::OutOfRange));
    assert!(rt; read_timestamp(b"9999-12-31T23:59:59-00:01") == Err(TimeFault::OutOfRange));
    for text in [
        b"".as_slice(),
        b"1970-01-01T00:00:00",
        b"1970-01-01t00:00:00Z",
        b"1970-01-01T00:00:60Z",
        b"1970-01-01T24:00:00Z",
        b"1900-02-29T00:00:00Z",
        b"1970-01-01T00:00:00+24:00",
        b"1970-01-01T00:00:00.0000000000Z",
        b"1970-01-01T00:00:00.Z",
        b"0000-02-30T00:00:00Z",
    ] {
        assert!(rt; read_timestamp(text) == Err(TimeFault::BadText));
    }
}

fn moment(seconds: i64, nanos: i32) -> Moment {
    Moment { seconds, nanos }
}

#[test]
fn times_are_shown(rt: HostRuntime) -> Result<(), Fail> {
    let mut out = Vec::new(rt.alloc());
    assert!(rt; show_duration(moment(0, -500_000_000), &mut out).is_ok());
    assert!(rt; show_timestamp(moment(-1, 1_000), &mut out).is_ok());
    assert!(rt; show_duration(moment(1, -1), &mut out) == Err(ShowFault::Unprintable));
    assert_eq!(rt;
        out.as_slice(),
        b"-0.500s1969-12-31T23:59:59.000001Z".as_slice()
    );
    Ok(())
}
