//! Answers to refusals, byte by byte, behind what stands before them.

use crate::put_refusal;
use gate_world::{Refusal, ValueFault};
use std::test::Fail;

#[test]
fn a_path_that_is_unknown(rt: HostRuntime) -> Result<(), Fail> {
    let mut out = Vec::from_slice(rt.alloc(), b"x")?;
    put_refusal(rt.alloc(), &mut out, Refusal::PathUnknown, false, b"GET")?;
    assert!(rt;
        out.as_slice()
            == b"xHTTP/1.1 404 Not Found\r\ncontent-type: application/json\r\n\
        content-length: 35\r\n\r\n{\"code\":5,\"message\":\"path unknown\"}"
                .as_slice()
    );
    Ok(())
}

#[test]
fn a_method_that_is_not_allowed(rt: HostRuntime) -> Result<(), Fail> {
    let mut out = Vec::new(rt.alloc());
    put_refusal(
        rt.alloc(),
        &mut out,
        Refusal::MethodNotAllowed,
        true,
        b"GET, PUT",
    )?;
    assert!(rt;
        out.as_slice()
            == b"HTTP/1.1 405 Method Not Allowed\r\ncontent-type: application/json\r\n\
        content-length: 42\r\nallow: GET, PUT\r\nconnection: close\r\n\r\n\
        {\"code\":12,\"message\":\"method not allowed\"}"
                .as_slice()
    );
    Ok(())
}

#[test]
fn a_value_that_is_wrong(rt: HostRuntime) -> Result<(), Fail> {
    let mut out = Vec::new(rt.alloc());
    let refusal = Refusal::BodyAt(35, ValueFault::NotUtf8);
    put_refusal(rt.alloc(), &mut out, refusal, true, b"")?;
    assert!(rt;
        out.as_slice()
            == b"HTTP/1.1 400 Bad Request\r\ncontent-type: application/json\r\n\
        content-length: 44\r\nconnection: close\r\n\r\n{\"code\":3,\"message\":\"body at 35: not UTF-8\"}"
                .as_slice()
    );
    Ok(())
}

#[test]
fn a_method_that_is_not_served(rt: HostRuntime) -> Result<(), Fail> {
    let mut out = Vec::new(rt.alloc());
    put_refusal(rt.alloc(), &mut out, Refusal::MethodNotServed, false, b"")?;
    assert!(rt;
        out.as_slice()
            == b"HTTP/1.1 501 Not Implemented\r\ncontent-length: 0\r\nconnection: close\r\n\r\n".as_slice()
    );
    Ok(())
}
