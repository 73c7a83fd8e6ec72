//! `fit` once on a path that fits and once on one that does not, and `target_path` once on each form of a target.

use crate::{Captures, Span, fit, target_path};
use http_rules::parse_template;
use std::test::Fail;

/// The first span, or none.
fn first_span(captures: Option<&Captures>) -> Option<Span> {
    captures?.get(0)
}

/// True where a path fits and no variable takes a part of it.
fn fits_without_spans(captures: Option<&Captures>) -> bool {
    match captures {
        Some(captures) => captures.is_empty(),
        None => false,
    }
}

#[test]
fn a_template_fits_a_path_or_does_not(rt: HostRuntime) -> Result<(), Fail> {
    let template = parse_template(rt.alloc(), "/v1/{a=**}:go")?;
    let captures = fit(&template, b"/v1/a/b:go");
    let span = Some(Span { from: 4, to: 7 });
    assert_eq!(rt; first_span(captures.as_ref()), span);
    assert!(rt; !fits_without_spans(captures.as_ref()));
    assert!(rt; fit(&template, b"/v1/a//b:go").is_none());
    let plain = parse_template(rt.alloc(), "/v1/*")?;
    assert!(rt; fits_without_spans(fit(&plain, b"/v1/a").as_ref()));
    assert!(rt; fit(&plain, b"/v1/").is_none());
    Ok(())
}

#[test]
fn a_target_has_a_path_or_none(rt: HostRuntime) -> Result<(), Fail> {
    assert!(rt; target_path(b"/a/b?x=1") == Some(b"/a/b".as_slice()));
    assert!(rt; target_path(b"HTTP://h/a?b/c") == Some(b"/a".as_slice()));
    assert!(rt; target_path(b"http://h?x") == Some(b"/".as_slice()));
    assert!(rt; target_path(b"*").is_none());
    Ok(())
}
