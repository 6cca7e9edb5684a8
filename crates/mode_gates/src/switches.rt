// The raw mode switches, and the functions that give their addresses.
ghost use Rattle.std.specs.Prelude.{◌≡◌, ◌≤◌, ◌<◌, ◌+◌, false, Some, Ok, Err, MatchResult};
ghost use Rattle.client_world.specs.{declared.memory_map.TheConstants.{ROM_START as rom_start}, Loading.{is_loadable}};
ghost use Rattle.client_world.specs.declared.registers.Mode.TheVariants.{Protected as protected, Real as real};
ghost use Rattle.client_world.specs.declared.services.Carry.TheVariants.{Set as set};
ghost use Rattle.service_rows.specs.Reasons.{Does};
ghost use Rattle.mode_gates.specs.{FarFrames.{world_after_far_return}, Switches.{address_regs, can_switch, gate_function, gate_service}};
ghost use Rattle.mode_gates.specs.Switches.{state_addresses, switch_addresses, regs_after_switch, world_after_switch_to_protected};
ghost use Rattle.mode_gates.specs.Switches.{world_after_switch_to_real};

use crate::far_frames::pop_far;
use crate::laws::a_far_return_changes_registers_alone;
use client_world::memory_map::{ROM_SEGMENT, ROM_START};
use client_world::selectors::{HOST_CODE, client_selector, selector_of};
use client_world::traps::{
    PROTECTED_STATE_TRAP, REAL_STATE_TRAP, SWITCH_TO_PROTECTED_TRAP, SWITCH_TO_REAL_TRAP,
};
use client_world::{Carry, Exit, Mode, Regs, SegReg, Width, by_width, low_half, with_low_half};
use guest_space::Machine;
use service_rows::{Refusal, with_by_width};

// The registers after a switch.
fn regs_after_switch(r: &Regs, code: u16, stack_pointer: u32, instruction_pointer: u32) -> Regs
    ensures { result ≡ regs_after_switch r.now code stack_pointer instruction_pointer }
{
    Regs {
        ds: low_half(r.eax),
        es: low_half(r.ecx),
        ss: low_half(r.edx),
        esp: stack_pointer,
        cs: code,
        eip: instruction_pointer,
        fs: 0,
        gs: 0,
        ..*r
    }
}

// Whether a selector can be loaded; the offset matters for CS alone.
fn is_loadable(m: &Machine, seg: SegReg, sel: u16, off: u32) -> bool
    ensures { result ≡ is_loadable m.now.world seg sel off false }
{
    match m.loadable(seg, sel, off, false) {
        Ok(()) => true,
        Err(_) => false,
    }
}

// Whether the registers name selectors that can be loaded.
fn can_switch(m: &Machine, width: Width) -> bool
    ensures { result ≡ can_switch m.now.world (Some width) }
{
    let r = m.regs();
    is_loadable(m, SegReg::Ds, low_half(r.eax), 0)
        && is_loadable(m, SegReg::Es, low_half(r.ecx), 0)
        && is_loadable(m, SegReg::Ss, low_half(r.edx), 0)
        && is_loadable(m, SegReg::Cs, low_half(r.esi), by_width(Some(width), r.edi))
}

/// Switches to real mode: DS, ES, SS and CS become AX, CX, DX and SI, SP becomes BX and IP becomes DI; FS and GS become 0, and all other
/// registers stay. Source: DPMI 0.9, INT 31h function 0306h.
#[tactic(auto, unfolding(crate::specs::Switches::world_after_switch_to_real))]
pub fn to_real(m: &mut Machine) -> Result<(), Exit>
    requires { m.old.world.mode ≡ protected }
    ensures done { result ≡ Ok tt }
    ensures world { m.new.world ≡ world_after_switch_to_real m.old.world }
    ensures bytes { m.new.bytes ≡ m.old.bytes }
{
    let r = m.regs();
    m.set_regs(regs_after_switch(
        &r,
        low_half(r.esi),
        u32::from(low_half(r.ebx)),
        u32::from(low_half(r.edi)),
    ));
    m.set_mode(Mode::Real);
    Ok(())
}

/// Switches to protected mode: DS, ES, SS and CS become AX, CX, DX and SI, (E)SP becomes (E)BX and (E)IP becomes (E)DI; FS and GS become 0,
/// and all other registers stay. `Stray` before the entry; `BadSwitch` where a selector can't be loaded, CS as by a far jump. An exit
/// leaves the machine as it was. Source: DPMI 0.9, INT 31h function 0306h; the exits are own.
#[tactic(auto, unfolding(crate::specs::Switches::world_after_switch_to_protected, crate::specs::Switches::after_switch))]
pub fn to_protected(m: &mut Machine) -> Result<(), Exit>
    requires { m.old.world.mode ≡ real }
    ensures machine { MatchResult result (λ _. world_after_switch_to_protected m.old.world ≡ Ok m.new.world)
        (λ exit. (world_after_switch_to_protected m.old.world ≡ Err exit) × (m.new ≡ m.old)) }
    ensures bytes { m.new.bytes ≡ m.old.bytes }
{
    let Some(width) = m.width() else {
        return Err(Exit::Stray);
    };
    if !can_switch(m, width) {
        return Err(Exit::BadSwitch);
    }
    let r = m.regs();
    let code = low_half(r.esi);
    m.set_regs(regs_after_switch(
        &r,
        client_selector(code),
        by_width(Some(width), r.ebx),
        by_width(Some(width), r.edi),
    ));
    m.set_mode(Mode::Protected);
    Ok(())
}

/// Saves or restores the state of the other mode, at the trap of that call in either mode: there is nothing to save, so it returns to its
/// caller and does nothing else. `BadFrame` where its return address can't be popped, which leaves the machine as it was.
/// Source: DPMI 0.9, INT 31h function 0305h; the exit is own.
pub fn state_call(m: &mut Machine) -> Result<(), Exit>
    ensures machine { MatchResult result (λ _. world_after_far_return m.old.world ≡ Ok m.new.world)
        (λ exit. (world_after_far_return m.old.world ≡ Err exit) × (m.new ≡ m.old)) }
    ensures bytes { m.new.bytes ≡ m.old.bytes }
{
    a_far_return_changes_registers_alone();
    match pop_far(m) {
        Ok(()) => Ok(()),
        Err(exit) => Err(exit),
    }
}

// Gives the addresses of a trap of real mode and of one of protected mode.
fn address_regs(m: &Machine, r: &Regs, real_at: u32, protected_at: u32) -> Regs
    requires real { rom_start ≤ real_at }
    requires real_end { real_at < rom_start + 0x10000 }
    requires protected { rom_start ≤ protected_at }
    requires protected_end { protected_at < rom_start + 0x10000 }
    ensures { result ≡ address_regs m.now.world.width r.now real_at protected_at }
{
    Regs {
        ebx: with_low_half(r.ebx, ROM_SEGMENT),
        ecx: with_low_half(r.ecx, (real_at - ROM_START) as u16),
        esi: with_low_half(r.esi, selector_of(HOST_CODE)),
        edi: with_by_width(m.width(), r.edi, protected_at - ROM_START),
        ..*r
    }
}

// Function 0305h: the addresses of the save and restore calls, whose buffer has 0 bytes.
#[tactic(auto, unfolding(crate::specs::Switches::state_addresses))]
fn state_addresses(m: &mut Machine) -> Result<(), Refusal>
    ensures { Does (state_addresses m.old.world) result m.old m.new }
{
    let mut r = m.regs();
    r.eax = with_low_half(r.eax, 0);
    let r = address_regs(m, &r, REAL_STATE_TRAP, PROTECTED_STATE_TRAP);
    m.set_regs(r);
    Ok(())
}

// Function 0306h: the addresses of the raw switches.
#[tactic(auto, unfolding(crate::specs::Switches::switch_addresses))]
fn switch_addresses(m: &mut Machine) -> Result<(), Refusal>
    ensures { Does (switch_addresses m.old.world) result m.old m.new }
{
    let r = address_regs(m, &m.regs(), SWITCH_TO_PROTECTED_TRAP, SWITCH_TO_REAL_TRAP);
    m.set_regs(r);
    Ok(())
}

// What the function of that number does, or why it refuses.
#[tactic(auto, unfolding(crate::specs::Switches::gate_function, service_rows::specs::Reasons::unsupported))]
fn ask(m: &mut Machine, ax: u16) -> Result<(), Refusal>
    ensures { Does (gate_function ax m.old.world) result m.old m.new }
{
    match ax {
        0x0305 => state_addresses(m),
        0x0306 => switch_addresses(m),
        _ => Err(Refusal::Unsupported),
    }
}

/// Serves function 0305h or 0306h of INT 31h, for a client in protected mode, which can't fail. For any other number it sets carry and
/// changes nothing. Source: DPMI 0.9, INT 31h functions 0305h and 0306h.
#[tactic(auto, using(crate::proofs::SwitchLaws::only_unsupported), unfolding(crate::specs::Switches::gate_service))]
pub fn serve(m: &mut Machine, ax: u16) -> Carry
    requires { m.old.world.mode ≡ protected }
    ensures served { record { carry = result; world = m.new.world } ≡ gate_service ax m.old.world }
    ensures same { result ≡ set → m.new ≡ m.old }
{
    match ask(m, ax) {
        Ok(()) => Carry::Clear,
        Err(_) => Carry::Set,
    }
}
