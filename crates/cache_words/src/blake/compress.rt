//! The compression function of BLAKE2b (RFC 7693, 3.2), one block of 128 bytes at a time, on words of 64 bits.
ghost use Rattle.std.specs.Prelude.{◌≡◌, true, ℕ, ◌+◌, ◌<◌, ◌≤◌, List, length, slice_index};
ghost use Rattle.cache_words.specs.Blake.{round, row, rounds, word_at, working, compress};

use super::lanes::{columns, diagonals};

/// The constants that the state begins from (2.6).
pub const IV: [u64; 8] = [
    0x6a09_e667_f3bc_c908,
    0xbb67_ae85_84ca_a73b,
    0x3c6e_f372_fe94_f82b,
    0xa54f_f53a_5f1d_36f1,
    0x510e_527f_ade6_82d1,
    0x9b05_688c_2b3e_6c1f,
    0x1f83_d9ab_fb41_bd6b,
    0x5be0_cd19_137e_2179,
];

// The order of the message's words in each round (2.7).
static SIGMA: [[usize; 16]; 10] = [
    [0, 1, 2, 3, 4, 5, 6, 7, 8, 9, 10, 11, 12, 13, 14, 15],
    [14, 10, 4, 8, 9, 15, 13, 6, 1, 12, 0, 2, 11, 7, 5, 3],
    [11, 8, 12, 0, 5, 2, 15, 13, 10, 14, 3, 6, 7, 1, 9, 4],
    [7, 9, 3, 1, 13, 12, 11, 14, 2, 6, 5, 10, 4, 0, 15, 8],
    [9, 0, 5, 7, 2, 4, 10, 15, 14, 1, 11, 12, 6, 8, 3, 13],
    [2, 12, 6, 10, 0, 11, 8, 3, 4, 13, 7, 5, 15, 14, 1, 9],
    [12, 5, 1, 15, 14, 13, 4, 10, 0, 7, 6, 3, 9, 2, 8, 11],
    [13, 11, 7, 14, 12, 1, 3, 9, 5, 0, 15, 4, 8, 6, 2, 10],
    [6, 15, 14, 9, 11, 3, 0, 8, 12, 2, 13, 7, 1, 4, 10, 5],
    [10, 2, 8, 4, 7, 6, 1, 5, 15, 11, 9, 14, 3, 12, 13, 0],
];

#[inline(always)]
#[tactic(auto, unfolding(crate::specs::Blake::round))]
fn round(v: &mut [u64; 16], m: &[u64; 16], s: &[usize; 16])
    requires { (i : ℕ) → slice_index s.now i < 16 }
    ensures { v.new ≡ round v.old m.now s.now }
{
    columns(
        v,
        [m[s[0]], m[s[2]], m[s[4]], m[s[6]]],
        [m[s[1]], m[s[3]], m[s[5]], m[s[7]]],
    );
    diagonals(
        v,
        [m[s[8]], m[s[10]], m[s[12]], m[s[14]]],
        [m[s[9]], m[s[11]], m[s[13]], m[s[15]]],
    );
}

#[inline(always)]
fn row(r: usize) -> &'static [usize; 16]
    ensures same { result.now ≡ row r }
    ensures below { (i : ℕ) → slice_index result.now i < 16 }
{
    &SIGMA[r % 10]
}

#[inline(always)]
fn step(v: &mut [u64; 16], m: &[u64; 16], r: usize)
    ensures { (start : List ℕ) → v.old ≡ rounds start m.now r → v.new ≡ rounds start m.now (r + 1) }
{
    round(v, m, row(r));
}

#[inline(always)]
fn load_le(block: &[u8], i: usize) -> u64
    requires { i + 8 ≤ length block.now }
    ensures { result ≡ word_at block.now i }
{
    let word = &block[i..i + 8];
    u64::from_le_bytes([
        word[0], word[1], word[2], word[3], word[4], word[5], word[6], word[7],
    ])
}

#[inline(always)]
fn working(h: &[u64; 8], count: u128, last: bool) -> [u64; 16]
    ensures { result ≡ working h.now count last }
{
    [
        h[0],
        h[1],
        h[2],
        h[3],
        h[4],
        h[5],
        h[6],
        h[7],
        IV[0],
        IV[1],
        IV[2],
        IV[3],
        IV[4] ^ (count % (1 << 64)) as u64,
        IV[5] ^ (count >> 64) as u64,
        if last { !IV[6] } else { IV[6] },
        IV[7],
    ]
}

// The rounds are written out, which is faster than a loop over them.
#[inline(always)]
fn compressed(h: &[u64; 8], block: &[u8], count: u128, last: bool) -> [u64; 8]
    requires { length block.now ≡ 128 }
    ensures { result ≡ compress h.now block.now count last }
{
    let mut m = [0u64; 16];
    'load: for i in 0..16 {
        m[i] = load_le(block, 8 * i);
    }
    let mut v = working(h, count, last);
    step(&mut v, &m, 0);
    step(&mut v, &m, 1);
    step(&mut v, &m, 2);
    step(&mut v, &m, 3);
    step(&mut v, &m, 4);
    step(&mut v, &m, 5);
    step(&mut v, &m, 6);
    step(&mut v, &m, 7);
    step(&mut v, &m, 8);
    step(&mut v, &m, 9);
    step(&mut v, &m, 10);
    step(&mut v, &m, 11);
    [
        h[0] ^ v[0] ^ v[8],
        h[1] ^ v[1] ^ v[9],
        h[2] ^ v[2] ^ v[10],
        h[3] ^ v[3] ^ v[11],
        h[4] ^ v[4] ^ v[12],
        h[5] ^ v[5] ^ v[13],
        h[6] ^ v[6] ^ v[14],
        h[7] ^ v[7] ^ v[15],
    ]
}

/// The state after one more block, `count` bytes of the message into it.
pub fn compress(h: &mut [u64; 8], block: &[u8], count: u128, last: bool)
    requires { length block.now ≡ 128 }
    ensures { h.new ≡ compress h.old block.now count last }
{
    *h = compressed(h, block, count, last);
}

/// The state after the last block, `len` bytes of the message into it, from the state `h`.
#[inline(always)]
pub fn compress_last(h: &[u64; 8], block: &[u8; 128], len: usize) -> [u64; 8]
    ensures { result ≡ compress h.now block.now len true }
{
    compressed(h, block, len as u128, true)
}
