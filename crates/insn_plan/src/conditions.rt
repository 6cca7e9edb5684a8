// The conditions of Jcc and SETcc.
ghost use Rattle.std.specs.Prelude.{◌≡◌};
ghost use Rattle.insn_plan.specs.Conditions.{condition, is_less};

use client_world::Flags;

// SF differs from OF: of two signed numbers that were compared, the first is less.
#[inline(always)]
fn is_less(f: &Flags) -> bool
    ensures { result ≡ is_less f.now }
{
    f.sf != f.of
}

/// Whether a condition 0 to 15 holds. Source: 80386 Programmer's Reference Manual, appendix D.
#[inline(always)]
pub fn condition(n: u8, f: &Flags) -> bool
    ensures { result ≡ condition n f.now }
{
    match n {
        0 => f.of,
        1 => !f.of,
        2 => f.cf,
        3 => !f.cf,
        4 => f.zf,
        5 => !f.zf,
        6 => f.cf || f.zf,
        7 => !(f.cf || f.zf),
        8 => f.sf,
        9 => !f.sf,
        10 => f.pf,
        11 => !f.pf,
        12 => is_less(f),
        13 => !is_less(f),
        _ if n % 2 == 0 => f.zf || is_less(f),
        _ => !(f.zf || is_less(f)),
    }
}
