//! Numbers with 64 bits of precision, whatever their size.

const HALF: u128 = 1 << 63;

const WHOLE: u128 = 1 << 64;

/// A number of at least 1: `mantissa` halved 63 times, and doubled `exponent` times.
#[derive(Clone, Copy)]
pub(crate) struct Scaled {
    mantissa: u64,
    exponent: u32,
}

fn narrow(number: u128) -> u64 {
    u64::try_from(number).unwrap_or(u64::MAX)
}

// The same number, which is at least 1.
pub(crate) fn precise(number: u64) -> Scaled {
    let zeros = number.leading_zeros();
    Scaled {
        mantissa: number.checked_shl(zeros).unwrap_or(0),
        exponent: 63u32.saturating_sub(zeros),
    }
}

// The product, cut off after its first 64 bits.
pub(crate) fn product(a: Scaled, b: Scaled) -> Scaled {
    let whole = u128::from(a.mantissa).saturating_mul(u128::from(b.mantissa));
    let exponent = a.exponent.saturating_add(b.exponent);
    let high = whole / WHOLE;
    if high >= HALF {
        return Scaled {
            mantissa: narrow(high),
            exponent: exponent.saturating_add(1),
        };
    }
    Scaled {
        mantissa: narrow(whole / HALF),
        exponent,
    }
}

// The nearest whole number.
pub(crate) fn rounded(number: Scaled) -> u64 {
    let left = 63u32.saturating_sub(number.exponent);
    let doubled = u128::from(number.mantissa).saturating_mul(2);
    let twice = doubled.checked_shr(left).unwrap_or(0);
    narrow(twice.saturating_add(1) / 2)
}

fn is_within(a: Scaled, b: Scaled) -> bool {
    a.exponent < b.exponent || a.exponent == b.exponent && a.mantissa <= b.mantissa
}

// The numbers of at least 1 in their order, by how many come before each.
fn at(place: u128) -> Scaled {
    Scaled {
        mantissa: narrow(HALF.saturating_add(place % HALF)),
        exponent: u32::try_from(place / HALF).unwrap_or(u32::MAX),
    }
}

// Whether so many steps by a ratio lead no further than an end.
fn stays_within(from: Scaled, to: Scaled, ratio: Scaled, steps: u64) -> bool {
    let mut reached = from;
    for step in 0..steps {
        if !is_within(reached, to) {
            return false;
        }
        reached = product(reached, ratio);
    }
    is_within(reached, to)
}

// The greatest ratio by which so many steps lead from one number no further than to another.
pub(crate) fn ratio(from: Scaled, to: Scaled, steps: u64) -> Scaled {
    let mut place = 0u128;
    let mut more = 1u128 << 69;
    for turn in 0..70 {
        if stays_within(from, to, at(place.saturating_add(more)), steps) {
            place = place.saturating_add(more);
        }
        more /= 2;
    }
    at(place)
}
