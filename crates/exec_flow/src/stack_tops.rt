// The stack pointer after items are popped and bytes are dropped.
ghost use Rattle.std.specs.Prelude.{◌≡◌};
ghost use Rattle.exec_flow.specs.Transfers.{regs_after_drop};
ghost use Rattle.insn_plan.specs.Stack.{regs_after_pops};

use guest_space::Machine;
use insn_plan::{esp_up, has_big_stack, popped_esp};

/// ESP after n items of a width are popped, and then a number of bytes is dropped.
#[inline(always)]
pub(crate) fn released_esp(m: &Machine, width: u8, n: u8, bytes: u32) -> u32
    ensures { result ≡ (regs_after_drop m.now.world bytes (regs_after_pops m.now.world width n m.now.world.regs)).esp }
{
    esp_up(has_big_stack(m), bytes, popped_esp(m, width, n))
}
