//! The mixing function of BLAKE2b (RFC 7693, 3.1) on four columns or diagonals of the working words at once, a lane of
//! the vectors for each.
ghost use Rattle.std.specs.Prelude.{◌≡◌, ℕ, ◌<◌, [], ◌∷◌, slice_index, bit_xor};
ghost use Rattle.std.specs.Int.{w64, rotate_right};
ghost use Rattle.cache_words.specs.Blake.{add64, half, mixed, mix};

use std::simd::u64x4;

#[inline(always)]
fn add(a: u64x4, b: u64x4) -> u64x4
    ensures { (j : ℕ) → j < 4 → slice_index result j ≡ add64 (slice_index a j) (slice_index b j) }
{
    a + b
}

#[inline(always)]
fn xor_rotate(a: u64x4, b: u64x4, k: u64) -> u64x4
    requires { (0 < k) × (k < 64) }
    ensures { (j : ℕ) → j < 4 → slice_index result j ≡ rotate_right w64 (bit_xor (slice_index a j) (slice_index b j)) k }
{
    let x = a ^ b;
    (x >> u64x4::splat(k)) | (x << u64x4::splat(64 - k))
}

#[inline(always)]
fn half(
    a: u64x4,
    b: u64x4,
    c: u64x4,
    d: u64x4,
    x: u64x4,
    r: u64,
    s: u64,
) -> (u64x4, u64x4, u64x4, u64x4)
    requires { (0 < r) × (r < 64) × (0 < s) × (s < 64) }
    ensures { (j : ℕ) → j < 4
        → slice_index result.0 j ∷ slice_index result.1 j ∷ slice_index result.2 j ∷ slice_index result.3 j ∷ []
        ≡ half (slice_index a j ∷ slice_index b j ∷ slice_index c j ∷ slice_index d j ∷ []) (slice_index x j) r s }
{
    let a1 = add(add(a, b), x);
    let d1 = xor_rotate(d, a1, r);
    let c1 = add(c, d1);
    let b1 = xor_rotate(b, c1, s);
    (a1, b1, c1, d1)
}

#[inline(always)]
fn mixed(a: u64x4, b: u64x4, c: u64x4, d: u64x4, x: u64x4, y: u64x4) -> (u64x4, u64x4, u64x4, u64x4)
    ensures { (j : ℕ) → j < 4
        → slice_index result.0 j ∷ slice_index result.1 j ∷ slice_index result.2 j ∷ slice_index result.3 j ∷ []
        ≡ mixed (slice_index a j ∷ slice_index b j ∷ slice_index c j ∷ slice_index d j ∷ []) (slice_index x j) (slice_index y j) }
{
    let (a1, b1, c1, d1) = half(a, b, c, d, x, 32, 24);
    half(a1, b1, c1, d1, y, 16, 63)
}

/// The four columns mixed, each with a word of x and one of y.
#[inline(always)]
pub fn columns(v: &mut [u64; 16], x: [u64; 4], y: [u64; 4])
    ensures { v.new ≡ mix (mix (mix (mix v.old
        0 4 8 12 (slice_index x 0) (slice_index y 0))
        1 5 9 13 (slice_index x 1) (slice_index y 1))
        2 6 10 14 (slice_index x 2) (slice_index y 2))
        3 7 11 15 (slice_index x 3) (slice_index y 3) }
{
    let a = u64x4::from_array([v[0], v[1], v[2], v[3]]);
    let b = u64x4::from_array([v[4], v[5], v[6], v[7]]);
    let c = u64x4::from_array([v[8], v[9], v[10], v[11]]);
    let d = u64x4::from_array([v[12], v[13], v[14], v[15]]);
    let (a, b, c, d) = mixed(a, b, c, d, u64x4::from_array(x), u64x4::from_array(y));
    let (a, b, c, d) = (a.to_array(), b.to_array(), c.to_array(), d.to_array());
    *v = [
        a[0], a[1], a[2], a[3], b[0], b[1], b[2], b[3], c[0], c[1], c[2], c[3], d[0], d[1], d[2],
        d[3],
    ];
}

/// The four diagonals mixed, each with a word of x and one of y. The last comes first in the vectors, so that b needs no
/// shuffle.
#[inline(always)]
pub fn diagonals(v: &mut [u64; 16], x: [u64; 4], y: [u64; 4])
    ensures { v.new ≡ mix (mix (mix (mix v.old
        0 5 10 15 (slice_index x 0) (slice_index y 0))
        1 6 11 12 (slice_index x 1) (slice_index y 1))
        2 7 8 13 (slice_index x 2) (slice_index y 2))
        3 4 9 14 (slice_index x 3) (slice_index y 3) }
{
    let a = u64x4::from_array([v[3], v[0], v[1], v[2]]);
    let b = u64x4::from_array([v[4], v[5], v[6], v[7]]);
    let c = u64x4::from_array([v[9], v[10], v[11], v[8]]);
    let d = u64x4::from_array([v[14], v[15], v[12], v[13]]);
    let x = u64x4::from_array([x[3], x[0], x[1], x[2]]);
    let y = u64x4::from_array([y[3], y[0], y[1], y[2]]);
    let (a, b, c, d) = mixed(a, b, c, d, x, y);
    let (a, b, c, d) = (a.to_array(), b.to_array(), c.to_array(), d.to_array());
    *v = [
        a[1], a[2], a[3], a[0], b[0], b[1], b[2], b[3], c[3], c[0], c[1], c[2], d[2], d[3], d[0],
        d[1],
    ];
}
