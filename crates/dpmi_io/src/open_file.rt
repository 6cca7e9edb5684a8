// The file that a shelf in memory has open.
ghost use Rattle.std.specs.Prelude.{◌≡◌, ◌≤◌, ◌<◌, ◌+◌, ◌++◌, [], length, take, drop, min};

/// The file that is open: its name, and how many of its bytes are read. Source: own.
#[derive(Drop)]
pub(crate) struct OpenFile {
    pub(crate) name: String,
    pub(crate) at: usize,
}

/// Moves bytes from a place on into the buffer, and the place after them.
pub(crate) fn give(bytes: &[u8], at: &mut usize, buf: &mut [u8]) -> usize
    ensures bound { result ≤ length buf.new }
    ensures count { result ≡ min (length buf.old) (length (drop at.old bytes.now)) }
    ensures place { at.new ≡ at.old + result }
    ensures bytes { drop at.old bytes.now ≡ take result buf.new ++ drop at.new bytes.now }
    ensures ends { 0 < length buf.old → take result buf.new ≡ [] → drop at.old bytes.now ≡ [] }
    ensures rest { drop result buf.new ≡ drop result buf.old }
{
    let left = bytes.get(*at..).unwrap_or(&[]);
    let count = buf.len().min(left.len());
    buf[..count].copy_from_slice(&left[..count]);
    *at += count;
    count
}
