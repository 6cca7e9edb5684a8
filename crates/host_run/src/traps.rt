// The trap bytes.
ghost use Rattle.std.specs.Prelude.{◌≡◌};
ghost use Rattle.host_run.specs.Traps.{address_in, code_address, is_among, is_trap, protected_trap_at, real_trap_at, current_trap, trap_at};
ghost use Rattle.client_world.specs.declared.registers.Mode.TheVariants.{Protected as protected};

use client_world::limits::{CALLBACKS, EXCEPTION_VECTORS, INTERRUPT_VECTORS};
use client_world::memory_map::{DOS_SIZE, PARAGRAPH_SIZE, ROM_START};
use client_world::traps::{
    CALL_RETURN_TRAP, CALLBACK_RETURN_TRAP, CALLBACK_TRAPS, ENTRY_TRAP, EXCEPTION_RETURN_TRAP,
    EXCEPTION_TRAPS, PROTECTED_STATE_TRAP, PROTECTED_VECTOR_TRAPS, REAL_STATE_TRAP,
    REAL_VECTOR_TRAPS, SWITCH_TO_PROTECTED_TRAP, SWITCH_TO_REAL_TRAP,
};
use client_world::{Mode, SegReg};
use guest_space::Machine;

/// The trap byte of the mode at CS:EIP, or none. Source: own.
#[derive(Clone, Copy, Debug, PartialEq, Eq)]
pub enum Trap {
    /// A default vector of real mode.
    RealVector(u8),
    /// The entry to protected mode.
    Entry,
    /// The raw switch to protected mode.
    ToProtected,
    /// The save and restore call of real mode.
    RealState,
    /// The return of a simulated call or of a reflection.
    CallReturn,
    /// A real-mode callback.
    Callback(u8),
    /// A default vector of protected mode.
    ProtectedVector(u8),
    /// A default exception handler.
    ExceptionHandler(u8),
    /// The raw switch to real mode.
    ToReal,
    /// The save and restore call of protected mode.
    ProtectedState,
    /// The return of an exception handler.
    ExceptionReturn,
    /// The return of a callback's procedure.
    CallbackReturn,
    /// No trap of the mode.
    NoTrap,
}

// Whether an address is one of the n from another on.
fn is_among(from: u32, n: u32, at: u64) -> bool
    ensures { result ≡ is_among from n at }
{
    u64::from(from) <= at && at < u64::from(from) + u64::from(n)
}

// The trap of real mode at a linear address.
#[tactic(auto, unfolding(crate::specs::Traps::real_trap_at))]
fn real_trap_at(at: u64) -> Trap
    ensures { result ≡ real_trap_at at }
{
    if is_among(REAL_VECTOR_TRAPS, INTERRUPT_VECTORS, at) {
        Trap::RealVector((at - u64::from(REAL_VECTOR_TRAPS)) as u8)
    } else if at == u64::from(ENTRY_TRAP) {
        Trap::Entry
    } else if at == u64::from(SWITCH_TO_PROTECTED_TRAP) {
        Trap::ToProtected
    } else if at == u64::from(REAL_STATE_TRAP) {
        Trap::RealState
    } else if at == u64::from(CALL_RETURN_TRAP) {
        Trap::CallReturn
    } else if is_among(CALLBACK_TRAPS, CALLBACKS, at) {
        Trap::Callback((at - u64::from(CALLBACK_TRAPS)) as u8)
    } else {
        Trap::NoTrap
    }
}

// The trap of protected mode at a linear address.
#[tactic(auto, unfolding(crate::specs::Traps::protected_trap_at))]
fn protected_trap_at(at: u64) -> Trap
    ensures { result ≡ protected_trap_at at }
{
    if is_among(PROTECTED_VECTOR_TRAPS, INTERRUPT_VECTORS, at) {
        Trap::ProtectedVector((at - u64::from(PROTECTED_VECTOR_TRAPS)) as u8)
    } else if is_among(EXCEPTION_TRAPS, EXCEPTION_VECTORS, at) {
        Trap::ExceptionHandler((at - u64::from(EXCEPTION_TRAPS)) as u8)
    } else if at == u64::from(SWITCH_TO_REAL_TRAP) {
        Trap::ToReal
    } else if at == u64::from(PROTECTED_STATE_TRAP) {
        Trap::ProtectedState
    } else if at == u64::from(EXCEPTION_RETURN_TRAP) {
        Trap::ExceptionReturn
    } else if at == u64::from(CALLBACK_RETURN_TRAP) {
        Trap::CallbackReturn
    } else {
        Trap::NoTrap
    }
}

// The trap of a mode at a linear address.
fn trap_at(mode: Mode, at: u64) -> Trap
    ensures { result ≡ trap_at mode at }
{
    match mode {
        Mode::Real => real_trap_at(at),
        Mode::Protected => protected_trap_at(at),
    }
}

// The linear address of CS:EIP in protected mode.
#[inline(always)]
fn protected_code_address(m: &Machine) -> u64
    requires { m.now.world.mode ≡ protected }
    ensures { result ≡ address_in protected m.now.world }
{
    u64::from(m.first_byte(SegReg::Cs).wrapping_add(m.registers().eip))
}

// The linear address of CS:EIP.
#[inline(always)]
fn code_address(m: &Machine) -> u64
    ensures { result ≡ code_address m.now.world }
{
    let cs = m.registers().cs;
    let eip = m.registers().eip;
    match m.mode() {
        Mode::Real => u64::from(cs) * u64::from(PARAGRAPH_SIZE) + u64::from(eip),
        Mode::Protected => protected_code_address(m),
    }
}

// The trap of CS:EIP, from its linear address.
#[inline(never)]
#[tactic(auto, unfolding(crate::specs::Traps::current_trap, crate::specs::Traps::code_linear))]
fn trap_in_rom(m: &Machine) -> Trap
    ensures { result ≡ current_trap m.now.world }
{
    let at = code_address(m);
    match m.fetch(0) {
        Ok(_) => trap_at(m.mode(), at),
        Err(_) => Trap::NoTrap,
    }
}

/// The trap of CS:EIP. Where the first byte of CS and EIP add up to an address outside read-only memory there is none, and nothing is
/// fetched: that sum is then the linear address in either mode.
#[tactic(auto, using(crate::proofs::NoTraps::none_below, crate::proofs::NoTraps::none_above))]
pub(crate) fn current_trap(m: &Machine) -> Trap
    ensures { result ≡ current_trap m.now.world }
{
    let at = u64::from(m.first_byte(SegReg::Cs)) + u64::from(m.registers().eip);
    if at < u64::from(ROM_START) {
        Trap::NoTrap
    } else if u64::from(DOS_SIZE) <= at && at <= u64::from(u32::MAX) {
        Trap::NoTrap
    } else {
        trap_in_rom(m)
    }
}

/// Whether CS:EIP is at a trap byte, which the host serves in place of an instruction. Source: own.
pub fn is_at_trap(m: &Machine) -> bool
    ensures { result ≡ is_trap (current_trap m.now.world) }
{
    match current_trap(m) {
        Trap::NoTrap => false,
        _ => true,
    }
}
