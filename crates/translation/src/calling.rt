// Calls that a client asks for: INT 31h functions 0300h to 0302h.
ghost use Rattle.std.specs.Prelude.{◌≡◌, ◌≢◌, ◌<◌, ◌≤◌, true, false, None, MatchResult};
ghost use Rattle.arrayvec.specs.ArrayVec.{array_vec_len};
ghost use Rattle.client_world.specs.declared.limits.TheConstants.{GREATEST_DEPTH, MAX_CALL_WORDS};
ghost use Rattle.client_world.specs.declared.memory_map.TheConstants.{SEGMENT_SIZE};
ghost use Rattle.client_world.specs.declared.registers.Mode.TheVariants.{Protected as protected};
ghost use Rattle.client_world.specs.{declared.services.Begun.TheVariants.{Refused as refused}, Services.{cx, es_di}, World.{depth}};
ghost use Rattle.service_rows.specs.Reasons.{Does};
ghost use Rattle.translation.specs.SimulatedCall.{are_readable_words, begin_call, call_regs, call_service, call_words, callee_interrupts};
ghost use Rattle.translation.specs.SimulatedCall.{callee_regs, callee_stack, callee_start, callee_world, carry_of, is_reflection};
ghost use Rattle.translation.specs.{SimulatedCall.{return_frame}, Structure.{structure_bytes, structure_flags, structure_regs}};

use crate::client_words::{MOST_WORDS, add_client_words};
use crate::real_stack::{check_stack, host_real_stack, put_words, words_below};
use crate::structure::{CallStructure, has_structure, read_structure};
use arrayvec::ArrayVec;
use client_world::limits::{GREATEST_DEPTH, MAX_CALL_WORDS};
use client_world::memory_map::{ROM_SEGMENT, ROM_START};
use client_world::traps::CALL_RETURN_TRAP;
use client_world::{Begun, Call, Deep, FarPtr, Mode, Record, Regs, is_interrupt_set, low_half};
use guest_space::Machine;
use mode_stack::{depth, push};
use service_rows::{Refusal, es_di, refuse};

// The greatest depth.
pub(crate) const DEEPEST: u8 = GREATEST_DEPTH as u8;

// The words of a callee's stack.
pub(crate) type StackWords = ArrayVec<u16, MOST_WORDS>;

// The return address, and above it the flags where the callee returns by IRET.
pub(crate) fn return_frame(call: Call, image: u16) -> StackWords
    ensures words { result.items ≡ return_frame call image }
    ensures few { array_vec_len result ≤ 3 }
{
    let mut words = ArrayVec::new();
    words.push((CALL_RETURN_TRAP - ROM_START) as u16);
    words.push(ROM_SEGMENT);
    match call {
        Call::Far => {}
        Call::Int(_) | Call::Iret | Call::Reflect(_) => words.push(image),
    }
    words
}

// Where the callee starts, by the registers of a structure.
pub(crate) fn callee_start(m: &Machine, call: Call, r: &Regs) -> FarPtr
    ensures { result ≡ callee_start m.now.world call r.now }
{
    match call {
        Call::Int(n) | Call::Reflect(n) => m.real_vector(n),
        Call::Far | Call::Iret => FarPtr {
            sel: r.cs,
            off: r.eip,
        },
    }
}

// The callee's stack before anything is pushed.
fn callee_stack(m: &Machine, r: &Regs) -> FarPtr
    ensures { result ≡ callee_stack m.now.world r.now }
{
    if r.esp == 0 && r.ss == 0 {
        host_real_stack(m)
    } else {
        FarPtr {
            sel: r.ss,
            off: r.esp,
        }
    }
}

// Virtual interrupts where the callee starts.
fn callee_interrupts(call: Call, image: u16) -> bool
    ensures { result ≡ callee_interrupts call image }
{
    match call {
        Call::Far => is_interrupt_set(image),
        Call::Int(_) | Call::Iret | Call::Reflect(_) => false,
    }
}

// The registers where the callee starts, with n words on its stack.
pub(crate) fn callee_regs(r: &Regs, start: FarPtr, stack: FarPtr, n: usize) -> Regs
    requires { n ≤ 0x1000 }
    ensures regs { result ≡ callee_regs r.now start stack n }
    ensures esp { result.esp < SEGMENT_SIZE }
{
    Regs {
        eip: start.off,
        cs: start.sel,
        esp: words_below(stack.off, n as u32),
        ss: stack.sel,
        ..*r
    }
}

// Leaves the client for a callee, with these words on its stack.
#[tactic(auto, unfolding(crate::specs::SimulatedCall::callee_world))]
pub(crate) fn enter(m: &mut Machine, call: Call, at: FarPtr, r: Regs, on: bool, words: &[u16])
    requires width { m.old.world.width ≢ None }
    requires depth { depth m.old.world < GREATEST_DEPTH }
    requires esp { r.esp < SEGMENT_SIZE }
    ensures world { m.new.world ≡ callee_world m.old.world call at r on words.now }
{
    let client = Record::Sim {
        call,
        saved: m.regs(),
        vif: m.vif(),
        at,
    };
    put_words(m, r.ss, r.esp, words);
    match push(m, &client) {
        Ok(()) => {
            m.set_regs(r);
            m.set_vif(on);
            m.set_mode(Mode::Real);
        }
        Err(Deep) => unreachable!(),
    }
}

// What lies on the callee's stack.
#[tactic(auto, unfolding(crate::specs::SimulatedCall::call_words))]
fn call_words(m: &Machine, call: Call, image: u16) -> Result<StackWords, Refusal>
    requires { cx m.now.world ≤ MAX_CALL_WORDS }
    ensures { MatchResult result
        (λ words. (are_readable_words m.now.world 0 (cx m.now.world) ≡ true) × (words.items ≡ call_words m.now.world call image))
        (λ refusal. (are_readable_words m.now.world 0 (cx m.now.world) ≡ false) × (refusal ≡ Refusal.InvalidAddress)) }
{
    let mut words = return_frame(call, image);
    add_client_words(m, &mut words, low_half(m.regs().ecx))?;
    Ok(words)
}

// The registers of the callee.
#[tactic(auto, unfolding(crate::specs::SimulatedCall::call_regs))]
fn call_regs(m: &Machine, call: Call, r: &Regs, n: usize) -> Regs
    requires { n ≤ 0x1000 }
    ensures regs { result ≡ call_regs m.now.world call r.now n }
    ensures esp { result.esp < SEGMENT_SIZE }
{
    callee_regs(r, callee_start(m, call, r), callee_stack(m, r), n)
}

// Makes the call by what its structure holds, or says why it is refused.
#[tactic(auto, unfolding(crate::specs::SimulatedCall::call_service))]
fn call_by(m: &mut Machine, call: Call) -> Result<(), Refusal>
    requires width { m.old.world.width ≢ None }
    ensures { Does (call_service m.old.world call (structure_regs (structure_bytes m.old.world (es_di m.old.world)))
        (structure_flags (structure_bytes m.old.world (es_di m.old.world)))) result m.old m.new }
{
    if u32::from(low_half(m.regs().ecx)) > MAX_CALL_WORDS {
        return Err(Refusal::InvalidValue);
    }
    if depth(m) == DEEPEST {
        return Err(Refusal::LinearMemoryUnavailable);
    }
    let at = es_di(m);
    if !has_structure(m, at) {
        return Err(Refusal::InvalidAddress);
    }
    let CallStructure { regs, image } = read_structure(m, at);
    let words = call_words(m, call, image)?;
    let r = call_regs(m, call, &regs, words.len());
    check_stack(r.ss, r.esp, words.len())?;
    enter(m, call, at, r, callee_interrupts(call, image), &words);
    Ok(())
}

/// Begins a call of a real-mode procedure or interrupt that a client asks for; the client goes on where it ends. It is refused where CX is
/// above 200, or at the greatest depth, or where the structure at ES:(E)DI can't be read and written, one of CX words at SS:(E)SP can't be
/// read, or a word of the real-mode stack can't be written. Then AX holds the number of the first of these, and nothing else changes.
/// Source: DPMI 0.9, INT 31h functions 0300h to 0302h; the order of the refusals and their numbers are own.
#[tactic(auto, unfolding(crate::specs::SimulatedCall::begin_call))]
pub fn begin(m: &mut Machine, call: Call) -> Begun
    requires mode { m.old.world.mode ≡ protected }
    requires kind { is_reflection call ≡ false }
    ensures begun { record { carry = carry_of result; world = m.new.world } ≡ begin_call m.old.world call }
    ensures bytes { result ≡ refused → m.new.bytes ≡ m.old.bytes }
{
    m.soundness();
    match call_by(m, call) {
        Ok(()) => Begun::Run,
        Err(refusal) => {
            refuse(m, refusal);
            Begun::Refused
        }
    }
}
