// Numbers of a few bytes, least byte first.
ghost use Rattle.std.specs.Prelude.{◌≤◌, ◌<◌, ◌^◌, IfOk};
ghost use Rattle.insn_decode.specs.Reading.{IsReading, number_at};

use crate::stop::Stop;

/// The number of the first `size` bytes, least byte first, and the bytes after them; or `More` where there are fewer.
/// Source: 80386 Programmer's Reference Manual, ch. 2, "Data Types".
#[inline(always)]
#[tactic(auto, unfolding(crate::specs::Reading::number_at))]
pub fn number(size: u8, bytes: &[u8]) -> Result<(u64, &[u8]), Stop>
    requires { size ≤ 6 }
    ensures gives { IsReading (λ x. (x.0, x.1.now)) result (number_at size bytes.now) }
    ensures below { IfOk result (λ x. x.0 < 256 ^ size) }
{
    match size {
        0 => Ok((0, bytes)),
        1 => one(bytes),
        2 => two(bytes),
        4 => four(bytes),
        _ => many(size, bytes),
    }
}

/// The first byte and the bytes after it, or 0 where the size is 0; or `More` where there is none. Source: own.
#[inline(always)]
pub fn byte(size: u8, bytes: &[u8]) -> Result<(u8, &[u8]), Stop>
    requires { size ≤ 1 }
    ensures { IsReading (λ x. (x.0, x.1.now)) result (number_at size bytes.now) }
{
    let (value, rest) = number(size, bytes)?;
    Ok((value as u8, rest))
}

#[inline(always)]
fn one(bytes: &[u8]) -> Result<(u64, &[u8]), Stop>
    ensures gives { IsReading (λ x. (x.0, x.1.now)) result (number_at 1 bytes.now) }
    ensures below { IfOk result (λ x. x.0 < 256 ^ 1) }
{
    if bytes.len() < 1 {
        return Err(Stop::More);
    }
    Ok((u64::from(bytes[0]), &bytes[1..]))
}

#[inline(always)]
fn two(bytes: &[u8]) -> Result<(u64, &[u8]), Stop>
    ensures gives { IsReading (λ x. (x.0, x.1.now)) result (number_at 2 bytes.now) }
    ensures below { IfOk result (λ x. x.0 < 256 ^ 2) }
{
    if bytes.len() < 2 {
        return Err(Stop::More);
    }
    let value = u16::from_le_bytes([bytes[0], bytes[1]]);
    Ok((u64::from(value), &bytes[2..]))
}

#[inline(always)]
fn four(bytes: &[u8]) -> Result<(u64, &[u8]), Stop>
    ensures gives { IsReading (λ x. (x.0, x.1.now)) result (number_at 4 bytes.now) }
    ensures below { IfOk result (λ x. x.0 < 256 ^ 4) }
{
    if bytes.len() < 4 {
        return Err(Stop::More);
    }
    let value = u32::from_le_bytes([bytes[0], bytes[1], bytes[2], bytes[3]]);
    Ok((u64::from(value), &bytes[4..]))
}

// Any number of bytes: a far pointer has six.
#[inline(never)]
#[tactic(auto, unfolding(crate::specs::Reading::number_at))]
fn many(size: u8, bytes: &[u8]) -> Result<(u64, &[u8]), Stop>
    requires { size ≤ 6 }
    ensures gives { IsReading (λ x. (x.0, x.1.now)) result (number_at size bytes.now) }
    ensures below { IfOk result (λ x. x.0 < 256 ^ size) }
{
    if size == 0 {
        return Ok((0, bytes));
    }
    match bytes {
        [] => Err(Stop::More),
        [first, rest @ ..] => {
            let (others, after) = many(size - 1, rest)?;
            Ok((u64::from(*first) + 256 * others, after))
        }
    }
}
