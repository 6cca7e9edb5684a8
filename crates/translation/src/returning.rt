// The return from a simulated call and from a reflected interrupt.
ghost use Rattle.std.specs.Prelude.{◌≡◌, ◌<◌, ◌-◌, ◌||◌, IsTrue, Ok, Err, MatchResult, take};
ghost use Rattle.client_world.specs.{declared.registers.Mode.TheVariants.{Protected as protected}, World.{depth}};
ghost use Rattle.guest_space.specs.Transfer.{HasOtherMemory};
ghost use Rattle.translation.specs.SimulatedCall.{after_results, after_return, can_go_on, client_regs, end_call, is_reflection};
ghost use Rattle.translation.specs.{SimulatedCall.{still_loadable, with_place_of}, Structure.{has_structure}};

use crate::structure::{has_structure, write_results};
use client_world::{Call, Exit, FarPtr, Flags, Mode, Record, Regs, SegReg};
use guest_space::{Machine, every_write_changes_the_memory_alone};
use mode_stack::{pop, top};

/// Whether a call is a reflection.
pub(crate) fn is_reflection(call: Call) -> bool
    ensures { result ≡ is_reflection call }
{
    match call {
        Call::Reflect(_) => true,
        Call::Int(_) | Call::Far | Call::Iret => false,
    }
}

// A selector that can still be loaded, else null.
fn still_loadable(m: &Machine, seg: SegReg, sel: u16) -> u16
    ensures { result ≡ still_loadable m.now.world seg sel }
{
    match m.loadable(seg, sel, 0, false) {
        Ok(()) => sel,
        Err(_) => 0,
    }
}

// Registers with the client's EIP, stack and segment registers.
fn with_place_of(m: &Machine, saved: &Regs, r: Regs) -> Regs
    ensures { result ≡ with_place_of m.now.world saved.now r }
{
    Regs {
        esp: saved.esp,
        eip: saved.eip,
        cs: saved.cs,
        ss: saved.ss,
        ds: still_loadable(m, SegReg::Ds, saved.ds),
        es: still_loadable(m, SegReg::Es, saved.es),
        fs: still_loadable(m, SegReg::Fs, saved.fs),
        gs: still_loadable(m, SegReg::Gs, saved.gs),
        ..r
    }
}

// The registers with which the client goes on.
fn client_regs(m: &Machine, call: Call, saved: &Regs) -> Regs
    ensures { result ≡ client_regs m.now.world call saved.now }
{
    if is_reflection(call) {
        with_place_of(m, saved, m.regs())
    } else {
        let clear = Flags {
            cf: false,
            ..saved.flags
        };
        with_place_of(
            m,
            saved,
            Regs {
                flags: clear,
                ..*saved
            },
        )
    }
}

// Whether the client's stack and code can be loaded, as a return loads them.
fn can_go_on(m: &Machine, saved: &Regs) -> bool
    ensures { result ≡ can_go_on m.now.world saved.now }
{
    m.loadable(SegReg::Ss, saved.ss, 0, false).is_ok()
        && m.loadable(SegReg::Cs, saved.cs, saved.eip, true).is_ok()
}

// Writes the results of a call into its structure.
fn give_results(m: &mut Machine, call: Call, at: FarPtr)
    requires { IsTrue (is_reflection call || has_structure m.old.world at) }
    ensures results { m.new.world ≡ after_results m.old.world call at }
    ensures rest { HasOtherMemory m.old.world m.new.world }
{
    if !is_reflection(call) {
        write_results(m, at);
    }
}

// Takes the innermost record away, and goes on in protected mode with these registers.
#[tactic(auto, using(guest_space::proofs::RecordWrites::has_width))]
fn go_on(m: &mut Machine, r: Regs, vif: bool)
    requires { 0 < depth m.old.world }
    ensures { m.new.world ≡ record m.old.world {
      mode = protected;
      regs = r;
      vif = vif;
      calls = take (depth m.old.world - 1) m.old.world.calls;
    } }
{
    m.soundness();
    pop(m);
    m.set_regs(r);
    m.set_vif(vif);
    m.set_mode(Mode::Protected);
}

// Gives the results of a call, and goes on with the client of the innermost record.
#[tactic(auto, unfolding(crate::specs::SimulatedCall::after_return), using(crate::proofs::HandedOver::same_depth, //
crate::proofs::HandedOver::resumed))]
fn resume(m: &mut Machine, call: Call, saved: &Regs, vif: bool, at: FarPtr)
    requires structure { IsTrue (is_reflection call || has_structure m.old.world at) }
    requires depth { 0 < depth m.old.world }
    ensures { m.new.world ≡ after_return m.old.world call saved.now vif at }
{
    let r = client_regs(m, call, saved);
    give_results(m, call, at);
    go_on(m, r, vif);
}

/// Ends the innermost simulated call or reflection, at the trap to which its procedure returns, and goes on with the client. `Stray` where
/// the innermost record is of no such call, else `LostStructure` where its structure can't be read and written any more, else `BadFrame`
/// where the client's SS or CS can't be loaded any more; an exit leaves the machine as it was.
/// Source: DPMI 0.9, INT 31h functions 0300h to 0302h; the exits are own.
#[tactic(auto, unfolding(crate::specs::SimulatedCall::end_call))]
pub fn end(m: &mut Machine) -> Result<(), Exit>
    ensures { MatchResult result (λ _. end_call m.old.world ≡ Ok m.new.world)
        (λ exit. (end_call m.old.world ≡ Err exit) × (m.new ≡ m.old)) }
{
    match top(m) {
        Some(
            Record::Sim {
                call,
                saved,
                vif,
                at,
            },
        ) => {
            if !is_reflection(call) && !has_structure(m, at) {
                return Err(Exit::LostStructure);
            }
            if !can_go_on(m, &saved) {
                return Err(Exit::BadFrame);
            }
            resume(m, call, &saved, vif, at);
            Ok(())
        }
        Some(Record::Back { .. } | Record::Exc { .. }) | None => Err(Exit::Stray),
    }
}
