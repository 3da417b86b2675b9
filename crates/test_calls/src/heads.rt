//! Heads with a given meta: those of a 304 and of interim responses have no body of their own, and a list of variants is put, never renewed.
use crate::short::{BAD_HEAD, begin_with, drop_request, look, open, put, put_whole, renew, tier};
use tier_calls::held::end;
use tier_calls::statuses::{ABSENT, BEGUN, FINISHED, FOUND, REVALIDATED};

const CONFIRMS: &[u8] = b"HTTP/1.1 304 Not Modified\r\n\r\n";

// Status by status: what a put and a begin say with a given meta, and what a renewal says.
const ROWS: &[(&[u8], u64, u64, u64)] = &[
    (CONFIRMS, BAD_HEAD, BAD_HEAD, BAD_HEAD),
    (
        b"HTTP/1.1 100 Continue\r\n\r\n",
        BAD_HEAD,
        BAD_HEAD,
        BAD_HEAD,
    ),
    (
        b"HTTP/1.1 103 Early Hints\r\n\r\n",
        BAD_HEAD,
        BAD_HEAD,
        BAD_HEAD,
    ),
    (b"HTTP/1.1 199 x\r\n\r\n", BAD_HEAD, BAD_HEAD, BAD_HEAD),
    (b"HTTP/1.1 200 OK\r\n\r\n", FINISHED, BEGUN, REVALIDATED),
    (
        b"HTTP/1.1 303 See Other\r\n\r\n",
        FINISHED,
        BEGUN,
        REVALIDATED,
    ),
    (
        b"HTTP/1.1 305 Use Proxy\r\n\r\n",
        FINISHED,
        BEGUN,
        REVALIDATED,
    ),
    (b"HTTP/1.1 599 x\r\n\r\n", FINISHED, BEGUN, REVALIDATED),
    (b"HTTP/1.1 600 List\r\n\r\n", FINISHED, BEGUN, BAD_HEAD),
    (b"HTTP/1.1 999 x\r\n\r\n", FINISHED, BEGUN, BAD_HEAD),
];

#[test]
fn a_given_meta_goes_with_a_head_that_has_its_own_body(rt: HostRuntime) {
    for &(head, put_said, begin_said, renewal_said) in ROWS {
        let mut held = tier(rt.alloc(), 1 << 20, 0);
        assert!(rt; put_whole(&mut held, b"/b", head, b"x", 0).0 == put_said);
        assert!(rt; open(&mut held, 1, 0) == 32 && look(&mut held, 1000, 1) == (ABSENT, 0));
        assert!(rt; begin_with(&mut held, 1, head, 0) == begin_said);
        drop_request(&mut held, 1);
        assert!(rt; put(&mut held, b"/a", b"old", 0) == FINISHED);
        assert!(rt; open(&mut held, 2, 0) == 32 && look(&mut held, 3000, 2) == (FOUND, 0));
        assert!(rt; renew(&mut held, 2, head) == renewal_said);
        end(held);
    }
}
