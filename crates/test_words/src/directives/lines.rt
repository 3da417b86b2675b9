//! What lines hold.
use crate::directives::control;
use crate::made::is_text;
use std::alloc::Global;

// Lines, and the Debug of their directives: first such as values.rt names, then lines with bytes from 80 hex on. A name that is
// not UTF-8 is passed over, and a value takes any byte.
const LINES: &[(&[u8], &str)] = &[
    (
        b"public, max-age=3",
        "CacheControl { directives: {Public: None, MaxAge: Some(DirectiveValue([51]))} }",
    ),
    (
        b"\xc3\xa4=\xff\x80, public",
        "CacheControl { directives: {Unknown(\"\u{e4}\"): Some(DirectiveValue([255, 128])), Public: None} }",
    ),
    (
        b"\xff=1, max-age=2",
        "CacheControl { directives: {MaxAge: Some(DirectiveValue([50]))} }",
    ),
    (
        b"public, \x80",
        "CacheControl { directives: {Public: None} }",
    ),
    (
        b"\xc3\x84=1, \xc3\xa4=2",
        "CacheControl { directives: {Unknown(\"\u{c4}\"): Some(DirectiveValue([49])), Unknown(\"\u{e4}\"): Some(DirectiveValue([50]))} }",
    ),
    (
        b"X-\xc3\x84=1, x-\xc3\x84=2",
        "CacheControl { directives: {Unknown(\"x-\u{c4}\"): Some(DirectiveValue([50]))} }",
    ),
    (
        b"a=\"\xc3\xa4\\\"\xe2\x82\xac\"",
        "CacheControl { directives: {Unknown(\"a\"): Some(DirectiveValue([34, 195, 164, 92, 34, 226, 130, 172, 34]))} }",
    ),
    (
        b"\xf0\x9f\x92\xa9",
        "CacheControl { directives: {Unknown(\"\u{1f4a9}\"): None} }",
    ),
    (
        b"max-age\xa0=5, \xa0max-age=6",
        "CacheControl { directives: {} }",
    ),
];

pub fn is_line(alloc: Global, line: &[u8], want: &str) -> bool {
    match control(alloc, &[line]) {
        Some(found) => is_text(format!(in alloc; "{found:?}"), want),
        None => false,
    }
}

#[test]
fn lines_have_directives(rt: HostRuntime) {
    for &(line, want) in LINES {
        assert!(rt; is_line(rt.alloc(), line, want));
    }
}
