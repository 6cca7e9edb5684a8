// A line of text as it is made, from literals and decimal numbers.
ghost use Rattle.std.specs.{Prelude.{◌≡◌, ◌≤◌, ◌+◌, ◌++◌, length}, Fmt.{decimal}};

use arrayvec::ArrayVec;

/// The most bytes of a line. The longest one, of the trace, has about 200.
pub const LINE_ROOM: usize = 256;

/// A line of text as it is made.
pub type Line = ArrayVec<u8, LINE_ROOM>;

/// Adds bytes to a line that has room for them. Source: own.
pub fn add(line: &mut Line, bytes: &[u8])
    requires { length line.old.items + length bytes.now ≤ LINE_ROOM }
    ensures added { line.new.items ≡ line.old.items ++ bytes.now }
    ensures len { length line.new.items ≡ length line.old.items + length bytes.now }
{
    for byte in bytes {
        line.push(*byte);
    }
}

/// Adds a number in decimal digits, 20 at most, to a line that has room for them. Source: own.
#[tactic(auto, using(crate::proofs::Decimal::decimal_more, crate::proofs::Decimal::decimal_more_length, //
crate::proofs::Decimal::decimal_one))]
pub fn add_decimal(line: &mut Line, n: u64)
    requires { length line.old.items + length (decimal n) ≤ LINE_ROOM }
    ensures added { line.new.items ≡ line.old.items ++ decimal n }
    ensures len { length line.new.items ≡ length line.old.items + length (decimal n) }
{
    if n >= 10 {
        add_decimal(line, n / 10);
        add(line, &[b'0' + (n % 10) as u8]);
    } else {
        add(line, &[b'0' + (n % 10) as u8]);
    }
}
