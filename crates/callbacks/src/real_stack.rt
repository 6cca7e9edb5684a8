// The descriptor of the real caller's stack, and what is asked before it is set as if it were there.
ghost use Rattle.std.specs.Prelude.{◌≡◌, ◌≢◌, ◌<◌, ◌&&◌, false, true, is_none, nat_eq, None};
ghost use Rattle.client_world.specs.{declared.limits.TheConstants.{GREATEST_DEPTH}, declared.registers.Mode.TheVariants.{Real as real}};
ghost use Rattle.client_world.specs.{declared.segments.SegReg.TheVariants.{Cs, Ss}, Access.{is_reachable}, Loading.{is_loadable}};
ghost use Rattle.client_world.specs.{Selector.{index_of, is_local}, World.{depth}};
ghost use Rattle.guest_space.specs.Transfer.{access_fault};
ghost use Rattle.translation.specs.declared.structure.TheConstants.{STRUCTURE_SIZE as structure_size};
ghost use Rattle.callbacks.specs.Callbacks.{stack_index, stack_row, with_stack_row};

use client_world::memory_map::PARAGRAPH_SIZE;
use client_world::selectors::{CALLBACK_STACKS, index_of, is_local};
use client_world::{Desc, FarPtr, Origin, SegReg};
use guest_space::Machine;
use mode_stack::depth;
use service_rows::data_at;
use translation::STRUCTURE_SIZE;

/// The index of the descriptor.
pub(crate) fn stack_index(m: &Machine) -> u16
    ensures { result ≡ stack_index m.now.world }
{
    CALLBACK_STACKS + u16::from(depth(m))
}

// The descriptor and its origin.
fn stack_row(m: &Machine) -> Option<(Desc, Origin)>
    ensures { result ≡ stack_row m.now.world }
{
    let base = u32::from(m.regs().ss) * PARAGRAPH_SIZE;
    Some((data_at(base, 0xFFFF), Origin::Host))
}

/// Sets the descriptor.
#[tactic(auto, using(crate::proofs::StackAsked::sound_row, crate::proofs::StackAsked::not_dos), //
unfolding(crate::specs::Callbacks::with_stack_row))]
pub(crate) fn set_stack_row(m: &mut Machine)
    requires width { m.old.world.width ≢ None }
    requires depth { depth m.old.world < GREATEST_DEPTH }
    ensures { m.new.world ≡ with_stack_row m.old.world }
{
    m.soundness();
    m.set_desc(stack_index(m), stack_row(m));
}

// Whether a selector names the descriptor.
fn names_stack_row(m: &Machine, sel: u16) -> bool
    ensures { result ≡ is_local sel && nat_eq (index_of sel) (stack_index m.now.world) }
{
    is_local(sel) && index_of(sel) == stack_index(m)
}

// Whether code can be loaded as by a far jump.
fn is_code_loadable(m: &Machine, p: FarPtr) -> bool
    ensures { result ≡ is_loadable m.now.world Cs p.sel p.off false }
{
    match m.loadable(SegReg::Cs, p.sel, p.off, false) {
        Ok(()) => true,
        Err(_) => false,
    }
}

// Whether a structure at an offset of SS can be written.
fn is_stack_writable(m: &Machine, off: u32) -> bool
    ensures { result ≡ is_none (access_fault m.now.world Ss off structure_size true) }
{
    match m.probe(SegReg::Ss, off, STRUCTURE_SIZE, true) {
        Ok(()) => true,
        Err(_) => false,
    }
}

/// Whether a procedure can be loaded, once the descriptor is set: the descriptor is not of code.
#[tactic(auto, using(crate::proofs::StackAsked::code_here, crate::proofs::StackAsked::code_elsewhere))]
pub(crate) fn is_loadable(m: &Machine, procedure: FarPtr) -> bool
    ensures { result ≡ is_loadable (with_stack_row m.now.world) Cs procedure.sel procedure.off false }
{
    m.soundness();
    if names_stack_row(m, procedure.sel) {
        false
    } else {
        is_code_loadable(m, procedure)
    }
}

/// Whether a structure can be written, once the descriptor is set: through it the bytes that the real caller can write through SS.
#[tactic(auto, using(crate::proofs::StackAsked::reach_here, crate::proofs::StackAsked::reach_elsewhere))]
pub(crate) fn is_writable(m: &Machine, at: FarPtr) -> bool
    requires { m.now.world.mode ≡ real }
    ensures { result ≡ is_reachable (with_stack_row m.now.world) at structure_size true }
{
    m.soundness();
    if names_stack_row(m, at.sel) {
        is_stack_writable(m, at.off)
    } else {
        m.far_ok(at, STRUCTURE_SIZE, true)
    }
}
