//! Texts and digests: owned texts, hashes of texts, hashes in hex, and BLAKE2b in any cut.
use crate::words::{bytes, hash_alike, is_text, string};
use cache_words::blake::{Blake2b128, DIGEST_LEN};
use cache_words::key::{CacheHashKey, CacheKey, HashBinary, hash_key, hash_u8, str2hex};
use cache_words::text::Text;
use std::alloc::Global;
use std::cmp::Ordering;

fn text(alloc: Global, bytes: &str) -> Text {
    Text::from_string(string(alloc, bytes))
}

// Two texts and how they compare. They hash alike where they are equal.
const ROWS: &[(&str, &str, Ordering)] = &[
    ("ab", "ab", Ordering::Equal),
    ("ab", "a", Ordering::Greater),
    ("ab", "abc", Ordering::Less),
    ("b", "ab", Ordering::Greater),
    ("", "", Ordering::Equal),
];

// Whether a text's copy is shown, lent and given back.
fn copy_is_whole(alloc: Global) -> bool {
    match text(alloc, "ab").clone() {
        Ok(copy) => {
            let is_shown = is_text(format!(in alloc; "{copy} {copy:?}"), "ab \"ab\"");
            let is_lent = copy.as_str() == "ab";
            copy.into_string().as_str() == "ab" && is_shown && is_lent
        }
        Err(_) => false,
    }
}

#[test]
fn texts_compare_hash_and_are_shown(rt: HostRuntime) {
    for &(first, second, order) in ROWS {
        let first = text(rt.alloc(), first);
        let second = text(rt.alloc(), second);
        let is_same = order == Ordering::Equal;
        assert!(rt; first.cmp(&second) == order);
        assert!(rt; first.partial_cmp(&second) == Some(order));
        assert!(rt; (first == second) == is_same);
        assert!(rt; hash_alike(&first, &second) == is_same);
    }
    assert!(rt; copy_is_whole(rt.alloc()));
}

#[test]
fn hash_of_a_text_and_hex_of_a_hash(rt: HostRuntime) {
    assert!(rt; Some(hash_key("tenant_a/path")) == str2hex("6c79e74e88bacb8eb370adb7617068c8"));
    assert!(rt; hash_u8("tenant_a/path") == 0x6c);
    assert!(rt; str2hex("6c79e74e88bacb8eb370adb7617068c") == None);
    assert!(rt; str2hex("6c79e74e88bacb8eb370adb7617068cg") == None);
    assert!(rt; str2hex("6c79e74e88bacb8eb370adb7617068c800") == None);
    assert!(rt; str2hex("") == None);
    let hash: HashBinary = [0, 1, 2, 3, 4, 5, 6, 7, 8, 9, 10, 11, 12, 13, 14, 15];
    assert!(rt; str2hex("000102030405060708090a0B0c0D0e0f") == Some(hash));
}

// Two pairs of components that are alike once joined, each component behind its length in eight bytes: a caller frames them so where the boundaries
// between them matter.
const LEFT: &[u8] = b"\0\0\0\0\0\0\0\x08tenant_a\0\0\0\0\0\0\0\x05/path";

const RIGHT: &[u8] = b"\0\0\0\0\0\0\0\x07tenant_\0\0\0\0\0\0\0\x06a/path";

fn primary_bin_of(alloc: Global, primary: &[u8]) -> HashBinary {
    CacheKey::new(bytes(alloc, primary), string(alloc, "1")).primary_bin()
}

#[test]
fn caller_framed_primary_avoids_ambiguous_component_boundaries(rt: HostRuntime) {
    let left = primary_bin_of(rt.alloc(), LEFT);
    assert!(rt; left != primary_bin_of(rt.alloc(), RIGHT));
    assert!(rt; left != hash_key("tenant_a/path"));
}

// Digests of the bytes 0, 1, 2, .. (modulo 256) of each length, made by Python: `hashlib.blake2b(bytes, digest_size=16)`.
const DIGESTS: &[(usize, &str)] = &[
    (0, "cae66941d9efbd404e4d88758ea67670"),
    (1, "7025e075d5e2f6cde3cc051a31f07660"),
    (63, "0d8952b502864e3820109070f09c631c"),
    (64, "59059895958b8a56277edb046df67166"),
    (127, "28b1296c7d4807883de6ee4ec04dcc0a"),
    (128, "a74787004ef589e31149183900d0294a"),
    (129, "aaf1b0371f6d4ee49ee4fb5ddd9c49ef"),
    (255, "192657d8c2d07da4ee7beb8c6f9951f4"),
    (256, "c2472c0ac37a8dbdb25f05ada0d82643"),
    (257, "5b9ad79f1309b3599ac3871688f3812c"),
    (1000, "978a3f8b45508a42fe7f0f99caf2c423"),
];

fn bytes_of(len: usize) -> [u8; 1000] {
    let mut bytes = [0; 1000];
    for i in 0..len.min(1000) {
        bytes[i] = (i % 256) as u8;
    }
    bytes
}

const PIECES: &[usize] = &[1, 7, 63, 64, 127, 128, 129, 1000];

fn digest_in_pieces(bytes: &[u8], piece_len: usize) -> [u8; DIGEST_LEN] {
    let mut hasher = Blake2b128::new();
    for piece in bytes.chunks(piece_len.max(1)) {
        hasher.update(piece);
    }
    hasher.finalize()
}

#[test]
fn digests_in_any_cut(rt: HostRuntime) {
    let bytes = bytes_of(1000);
    for &(len, digest) in DIGESTS {
        for &piece_len in PIECES {
            let found = digest_in_pieces(&bytes[..len.min(1000)], piece_len);
            assert!(rt; Some(found) == str2hex(digest));
        }
    }
}
