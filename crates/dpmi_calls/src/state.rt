// The numbers of a client's state.
ghost use Rattle.std.specs.Prelude.{◌≡◌};
ghost use Rattle.dpmi_calls.specs.States.{IsState, bits_of, exit_code, exit_kind, exit_number, mode_number};

use client_world::{Exit, Mode, SegReg};
use guest_space::Machine;
use host_run::{Host, is_at_trap};
use mode_stack::depth;

/// A client's state after some of its turns.
#[repr(C)]
#[derive(Clone, Copy)]
pub struct State {
    pub eax: u32,
    pub ecx: u32,
    pub edx: u32,
    pub ebx: u32,
    pub esp: u32,
    pub ebp: u32,
    pub esi: u32,
    pub edi: u32,
    pub eip: u32,
    /// The linear addresses at which the segments in the segment registers begin.
    pub es_base: u32,
    pub cs_base: u32,
    pub ss_base: u32,
    pub ds_base: u32,
    pub fs_base: u32,
    pub gs_base: u32,
    /// How many turns were made.
    pub steps: u32,
    /// How many bytes the client wrote to the console.
    pub console: u32,
    /// The error code of the exception that ended the run.
    pub exit_code: u32,
    /// The 16-bit image of the flags.
    pub flags: u16,
    pub es: u16,
    pub cs: u16,
    pub ss: u16,
    pub ds: u16,
    pub fs: u16,
    pub gs: u16,
    /// 0 in real mode, 1 in protected mode.
    pub mode: u8,
    /// The bits of code and of addresses on the stack: 16 or 32.
    pub code_bits: u8,
    pub stack_bits: u8,
    /// 1 where virtual interrupts are enabled.
    pub virtual_interrupts: u8,
    /// How many calls, callbacks and exceptions are open.
    pub depth: u8,
    /// 1 where the next turn serves a trap of the host, and runs no instruction.
    pub trap: u8,
    /// How the run ended: 0 while it goes on, 1 where the client ended itself, 2 after an exception that nothing handles, and 3 to 10 for
    /// the other exits.
    pub exit: u8,
    /// The client's code, or the number of the exception.
    pub exit_number: u8,
}

impl State {
    /// A row that no state was written to.
    pub const NONE: State = State {
        eax: 0,
        ecx: 0,
        edx: 0,
        ebx: 0,
        esp: 0,
        ebp: 0,
        esi: 0,
        edi: 0,
        eip: 0,
        es_base: 0,
        cs_base: 0,
        ss_base: 0,
        ds_base: 0,
        fs_base: 0,
        gs_base: 0,
        steps: 0,
        console: 0,
        exit_code: 0,
        flags: 0,
        es: 0,
        cs: 0,
        ss: 0,
        ds: 0,
        fs: 0,
        gs: 0,
        mode: 0,
        code_bits: 0,
        stack_bits: 0,
        virtual_interrupts: 0,
        depth: 0,
        trap: 0,
        exit: 0,
        exit_number: 0,
    };
}

// How a run ended, as a number; 0 while it goes on.
fn exit_kind(exit: Option<Exit>) -> u8
    ensures { result ≡ exit_kind exit }
{
    match exit {
        None => 0,
        Some(Exit::Exited(_)) => 1,
        Some(Exit::Fault(_, _)) => 2,
        Some(Exit::Bound) => 3,
        Some(Exit::NoKeys) => 4,
        Some(Exit::ConsoleFull) => 5,
        Some(Exit::Deep) => 6,
        Some(Exit::Stray) => 7,
        Some(Exit::LostStructure) => 8,
        Some(Exit::BadFrame) => 9,
        Some(Exit::BadSwitch) => 10,
    }
}

// The client's code, or the number of the exception.
fn exit_number(exit: Option<Exit>) -> u8
    ensures { result ≡ exit_number exit }
{
    match exit {
        Some(Exit::Exited(code)) => code,
        Some(Exit::Fault(number, _)) => number,
        _ => 0,
    }
}

// The error code of the exception.
fn exit_code(exit: Option<Exit>) -> u32
    ensures { result ≡ exit_code exit }
{
    match exit {
        Some(Exit::Fault(_, code)) => code,
        _ => 0,
    }
}

// 0 in real mode, 1 in protected mode.
fn mode_number(mode: Mode) -> u8
    ensures { result ≡ mode_number mode }
{
    match mode {
        Mode::Real => 0,
        Mode::Protected => 1,
    }
}

// The bits of an address in the segment in a register.
fn bits_of(m: &Machine, seg: SegReg) -> u8
    ensures { result ≡ bits_of m.now.world seg }
{
    if m.is_big(seg) { 32 } else { 16 }
}

/// The state of a host.
pub fn state_of(host: &Host) -> State
    ensures { IsState result host.now.world }
{
    let m = host.machine();
    let r = m.regs();
    let exit = host.exit();
    State {
        eax: r.eax,
        ecx: r.ecx,
        edx: r.edx,
        ebx: r.ebx,
        esp: r.esp,
        ebp: r.ebp,
        esi: r.esi,
        edi: r.edi,
        eip: r.eip,
        es_base: m.first_byte(SegReg::Es),
        cs_base: m.first_byte(SegReg::Cs),
        ss_base: m.first_byte(SegReg::Ss),
        ds_base: m.first_byte(SegReg::Ds),
        fs_base: m.first_byte(SegReg::Fs),
        gs_base: m.first_byte(SegReg::Gs),
        steps: host.steps(),
        console: host.console().len() as u32,
        exit_code: exit_code(exit),
        flags: r.flags.image(m.vif()),
        es: r.es,
        cs: r.cs,
        ss: r.ss,
        ds: r.ds,
        fs: r.fs,
        gs: r.gs,
        mode: mode_number(m.mode()),
        code_bits: bits_of(m, SegReg::Cs),
        stack_bits: bits_of(m, SegReg::Ss),
        virtual_interrupts: u8::from(m.vif()),
        depth: depth(m),
        trap: u8::from(is_at_trap(m)),
        exit: exit_kind(exit),
        exit_number: exit_number(exit),
    }
}
