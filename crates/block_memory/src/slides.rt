// Runs of bytes that move, with zeros in the place that they leave.
ghost use Rattle.std.specs.Prelude.{◌≡◌, ◌≤◌, ◌<◌, ◌+◌, ◌^◌, length};
ghost use Rattle.block_memory.specs.BlockSizes.{vacant_count, vacant_start, after_slide};

use guest_ram::Ram;

// How many bytes a run of n bytes leaves that moves from one place to another.
fn vacant_count(from: u32, to: u32, n: u32) -> u32
    ensures { result ≡ vacant_count from to n }
{
    from.abs_diff(to).min(n)
}

// Where the bytes begin that it leaves.
fn vacant_start(from: u32, to: u32, n: u32) -> u32
    requires { from + n < 2 ^ 32 }
    ensures { result ≡ vacant_start from to n }
{
    if from < to {
        from
    } else {
        from + (n - vacant_count(from, to, n))
    }
}

/// Moves a run of n bytes from one place to another, which may overlap, and clears what it leaves. Source: own.
#[tactic(auto, unfolding(crate::specs::BlockSizes::after_slide))]
pub(crate) fn slide(ram: &mut Ram, from: u32, to: u32, n: u32)
    requires source { from + n ≤ length ram.old }
    requires target { to + n ≤ length ram.old }
    ensures bytes { ram.new ≡ after_slide ram.old from to n }
    ensures size { length ram.new ≡ length ram.old }
{
    let _size = ram.len();
    ram.copy(from, to, n);
    ram.fill(vacant_start(from, to, n), vacant_count(from, to, n), 0);
}
