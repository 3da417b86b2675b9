// Numbers of one width at the front of bytes, high byte first.
ghost use Rattle.std.specs.Int.{w8, w16, w32, w64};
ghost use Rattle.cache_words.specs.Reading.{Gives, wide_at};

use super::fault::PackFault;

pub(super) fn u8_at(bytes: &[u8]) -> Result<(u64, &[u8]), PackFault>
    ensures { Gives (λ x. (x.0, x.1.now)) result (wide_at w8 bytes.now) }
{
    if bytes.len() < 1 {
        return Err(PackFault::Short);
    }
    let (front, rest) = bytes.split_at(1);
    Ok((front[0] as u64, rest))
}

pub(super) fn u16_at(bytes: &[u8]) -> Result<(u64, &[u8]), PackFault>
    ensures { Gives (λ x. (x.0, x.1.now)) result (wide_at w16 bytes.now) }
{
    if bytes.len() < 2 {
        return Err(PackFault::Short);
    }
    let (front, rest) = bytes.split_at(2);
    let number = u16::from_be_bytes([front[0], front[1]]);
    Ok((number as u64, rest))
}

pub(super) fn u32_at(bytes: &[u8]) -> Result<(u64, &[u8]), PackFault>
    ensures { Gives (λ x. (x.0, x.1.now)) result (wide_at w32 bytes.now) }
{
    if bytes.len() < 4 {
        return Err(PackFault::Short);
    }
    let (front, rest) = bytes.split_at(4);
    let number = u32::from_be_bytes([front[0], front[1], front[2], front[3]]);
    Ok((number as u64, rest))
}

pub(super) fn u64_at(bytes: &[u8]) -> Result<(u64, &[u8]), PackFault>
    ensures { Gives (λ x. (x.0, x.1.now)) result (wide_at w64 bytes.now) }
{
    if bytes.len() < 8 {
        return Err(PackFault::Short);
    }
    let (front, rest) = bytes.split_at(8);
    let number = u64::from_be_bytes([
        front[0], front[1], front[2], front[3], front[4], front[5], front[6], front[7],
    ]);
    Ok((number, rest))
}
