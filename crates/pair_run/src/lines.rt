// The lines that a pair of clients writes.
ghost use Rattle.std.specs.Prelude.{◌≡◌, ◌≤◌, length};
ghost use Rattle.pair_run.specs.Slices.{letter_text, pair_head, slice_head};

use dpmi_io::{Line, add, add_decimal};

/// Which one of two clients. Source: own.
#[derive(Clone, Copy, Debug, PartialEq, Eq)]
pub enum Letter {
    A,
    B,
}

// How a client is named.
fn name_of(client: Letter) -> &'static [u8]
    ensures name { result.now ≡ letter_text client }
    ensures short { length result.now ≤ 1 }
{
    match client {
        Letter::A => b"a",
        Letter::B => b"b",
    }
}

// The first line: how many turns a slice has.
#[tactic(auto, using(dpmi_io::proofs::Decimal::decimal_short))]
pub(crate) fn pair_head(slice: u32) -> Line
    ensures { result.items ≡ pair_head slice }
{
    let mut line = Line::new();
    add(&mut line, b"pair slice ");
    add_decimal(&mut line, u64::from(slice));
    add(&mut line, b"\n");
    line
}

// The line before a slice's bytes.
#[tactic(auto, using(dpmi_io::proofs::Decimal::decimal_short, dpmi_io::proofs::Decimal::decimal_long))]
pub(crate) fn slice_head(number: u32, client: Letter, count: u64) -> Line
    ensures { result.items ≡ slice_head number client count }
{
    let mut line = Line::new();
    add(&mut line, b"slice ");
    add_decimal(&mut line, u64::from(number));
    add(&mut line, b" ");
    add(&mut line, name_of(client));
    add(&mut line, b" ");
    add_decimal(&mut line, count);
    add(&mut line, b"\n");
    line
}
