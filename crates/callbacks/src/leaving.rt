// The return from a callback.
ghost use Rattle.std.specs.Prelude.{◌≡◌, ◌<◌, ◌-◌, Ok, Err, MatchResult, take};
ghost use Rattle.client_world.specs.{declared.registers.Mode.TheVariants.{Real as real}, declared.registers.TheConstants.{INTERRUPT_BIT}};
ghost use Rattle.client_world.specs.{Registers.{has_bit}, World.{depth}};
ghost use Rattle.callbacks.specs.Callbacks.{leave_callback};

use client_world::{Exit, Mode, Record, is_interrupt_set};
use guest_space::Machine;
use mode_stack::{pop, top};
use service_rows::es_di;
use translation::{CallStructure, STRUCTURE_SIZE, read_structure};

// Removes the innermost record, and goes on in real mode with what a structure holds.
fn go_on(m: &mut Machine, s: CallStructure)
    requires { 0 < depth m.old.world }
    ensures { m.new.world ≡ record m.old.world {
      mode = real;
      regs = s.regs;
      vif = has_bit s.image INTERRUPT_BIT;
      calls = take (depth m.old.world - 1) m.old.world.calls;
    } }
{
    pop(m);
    m.set_regs(s.regs);
    m.set_vif(is_interrupt_set(s.image));
    m.set_mode(Mode::Real);
}

/// Returns from the innermost callback, at the trap to which its procedure returns: real mode goes on with the registers and the virtual
/// interrupt flag of the structure at the present ES:(E)DI. `Stray` where the innermost record is no callback's, else `LostStructure` where
/// that structure can't be read; an exit leaves the machine as it was.
/// Source: DPMI 0.9, INT 31h function 0303h; the exits are own.
#[tactic(auto, unfolding(crate::specs::Callbacks::leave_callback, crate::specs::Callbacks::after_leaving))]
pub fn leave(m: &mut Machine) -> Result<(), Exit>
    ensures { MatchResult result (λ _. leave_callback m.old.world ≡ Ok m.new.world)
        (λ exit. (leave_callback m.old.world ≡ Err exit) × (m.new ≡ m.old)) }
{
    match top(m) {
        Some(Record::Back { .. }) => {
            let at = es_di(m);
            if !m.far_ok(at, STRUCTURE_SIZE, false) {
                return Err(Exit::LostStructure);
            }
            let structure = read_structure(m, at);
            go_on(m, structure);
            Ok(())
        }
        Some(Record::Sim { .. } | Record::Exc { .. }) | None => Err(Exit::Stray),
    }
}
