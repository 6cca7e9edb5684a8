// The call of a callback.
ghost use Rattle.std.specs.Prelude.{◌≡◌, ◌≢◌, ◌<◌, IsTrue, true, None, Ok, Err, MatchResult, if◌then◌else◌};
ghost use Rattle.client_world.specs.{declared.limits.TheConstants.{GREATEST_DEPTH}, declared.registers.Mode.TheVariants.{Real as real}};
ghost use Rattle.client_world.specs.{Access.{is_reachable}, World.{depth}};
ghost use Rattle.exec_flow.specs.Interrupts.{item_bits};
ghost use Rattle.guest_space.specs.{Far.{world_after_far_write, after_far_write}, Transfer.{HasOtherMemory}};
ghost use Rattle.guest_space.specs.VectorLists.{callback_of_slot};
ghost use Rattle.translation.specs.declared.structure.TheConstants.{STRUCTURE_SIZE as structure_size};
ghost use Rattle.callbacks.specs.Callbacks.{after_entering, caller_structure, enter_callback, callback_frame_start, callback_frame_size};
ghost use Rattle.callbacks.specs.Callbacks.{procedure_regs, callback_frame, with_frame_and_structure, with_stack_row};

use crate::real_stack::{is_loadable, is_writable, set_stack_row, stack_index};
use crate::services::callback_offset;
use client_world::limits::{CALLBACKS, GREATEST_DEPTH};
use client_world::memory_map::{ROM_SEGMENT, ROM_START};
use client_world::selectors::{HOST_CODE, HOST_STACKS, client_selector, selector_of};
use client_world::traps::CALLBACK_RETURN_TRAP;
use client_world::{Deep, Exit, FarPtr, Mode, Record, Regs, Width, low_half};
use guest_space::{
    Machine, a_write_changes_no_access, dword_bytes, every_write_changes_the_memory_alone,
    the_protected_stacks_are_reachable, word_bytes,
};
use mode_stack::{depth, frame_address, push, put_at};
use service_rows::with_by_width;
use translation::{index_results, other_results};

// The greatest depth.
const DEEPEST: u8 = GREATEST_DEPTH as u8;

// The offset of the trap to which the procedure returns.
const RETURN_OFFSET: u16 = (CALLBACK_RETURN_TRAP - ROM_START) as u16;

// The bytes of the frame for a 16-bit client.
#[tactic(auto, unfolding(crate::specs::Callbacks::callback_frame))]
fn word_frame(m: &Machine) -> [u8; 6]
    requires { item_bits m.now.world.width ≡ 16 }
    ensures { result ≡ callback_frame m.now.world }
{
    let image = m.regs().flags.image(m.vif());
    let mut bytes = [0; 6];
    put_at(&mut bytes, 0, &word_bytes(RETURN_OFFSET));
    put_at(&mut bytes, 2, &word_bytes(selector_of(HOST_CODE)));
    put_at(&mut bytes, 4, &word_bytes(image));
    bytes
}

// And for a 32-bit client.
#[tactic(auto, unfolding(crate::specs::Callbacks::callback_frame))]
fn dword_frame(m: &Machine) -> [u8; 12]
    requires { item_bits m.now.world.width ≡ 32 }
    ensures { result ≡ callback_frame m.now.world }
{
    let image = m.regs().flags.image(m.vif());
    let mut bytes = [0; 12];
    put_at(&mut bytes, 0, &dword_bytes(u32::from(RETURN_OFFSET)));
    put_at(
        &mut bytes,
        4,
        &dword_bytes(u32::from(selector_of(HOST_CODE))),
    );
    put_at(&mut bytes, 8, &dword_bytes(u32::from(image)));
    bytes
}

// Whether the client is one of 32 bits.
fn is_wide(m: &Machine) -> bool
    ensures { item_bits m.now.world.width ≡ (if result then 32 else 16) }
{
    match m.width() {
        None | Some(Width::Sixteen) => false,
        Some(Width::ThirtyTwo) => true,
    }
}

// Where the frame lies.
fn callback_frame_start(m: &Machine) -> FarPtr
    requires { depth m.now.world < GREATEST_DEPTH }
    ensures { result ≡ callback_frame_start m.now.world }
{
    let size = if is_wide(m) { 12 } else { 6 };
    frame_address(m, size)
}

// Writes the frame.
fn write_frame(m: &mut Machine)
    requires width { m.old.world.width ≢ None }
    requires depth { depth m.old.world < GREATEST_DEPTH }
    ensures { m.new ≡ after_far_write m.old (callback_frame_start m.old.world) (callback_frame_size m.old.world)
        (callback_frame m.old.world) }
{
    the_protected_stacks_are_reachable();
    m.soundness();
    let at = callback_frame_start(m);
    if is_wide(m) {
        m.write_bytes(at, &dword_frame(m));
    } else {
        m.write_bytes(at, &word_frame(m));
    }
}

// The structure's bytes.
#[tactic(auto, unfolding(crate::specs::Callbacks::caller_structure, translation::specs::Structure::index_results, //
translation::specs::Structure::other_results))]
fn caller_structure(m: &Machine, slot: u8) -> [u8; 0x32]
    ensures { result ≡ caller_structure m.now.world slot }
{
    let r = m.regs();
    let mut bytes = [0; 0x32];
    put_at(&mut bytes, 0x00, &index_results(&r));
    put_at(&mut bytes, 0x10, &other_results(&r, m.vif()));
    put_at(&mut bytes, 0x2A, &word_bytes(callback_offset(slot)));
    put_at(&mut bytes, 0x2C, &word_bytes(ROM_SEGMENT));
    put_at(&mut bytes, 0x2E, &word_bytes(low_half(r.esp)));
    put_at(&mut bytes, 0x30, &word_bytes(r.ss));
    bytes
}

// The procedure's registers.
#[tactic(auto, unfolding(crate::specs::Callbacks::procedure_regs))]
fn procedure_regs(m: &Machine, procedure: FarPtr, at: FarPtr) -> Regs
    requires { depth m.now.world < GREATEST_DEPTH }
    ensures { result ≡ procedure_regs m.now.world procedure at }
{
    let r = m.regs();
    Regs {
        cs: client_selector(procedure.sel),
        eip: procedure.off,
        ss: selector_of(HOST_STACKS),
        esp: callback_frame_start(m).off,
        ds: selector_of(stack_index(m)),
        esi: with_by_width(m.width(), r.esi, u32::from(low_half(r.esp))),
        es: at.sel,
        edi: with_by_width(m.width(), r.edi, at.off),
        fs: 0,
        gs: 0,
        ..r
    }
}

// Writes the frame, and then the structure.
#[tactic(auto, unfolding(crate::specs::Callbacks::with_frame_and_structure, guest_space::specs::Far::world_after_far_write, //
guest_space::specs::Far::after_far_write, guest_space::specs::Transfer::with_places))]
fn write_both(m: &mut Machine, slot: u8, at: FarPtr)
    requires width { m.old.world.width ≢ None }
    requires depth { depth m.old.world < GREATEST_DEPTH }
    requires reachable { IsTrue (is_reachable m.old.world at structure_size true) }
    ensures written { m.new.world ≡ with_frame_and_structure m.old.world slot at }
    ensures rest { HasOtherMemory m.old.world m.new.world }
{
    every_write_changes_the_memory_alone();
    a_write_changes_no_access();
    let structure = caller_structure(m, slot);
    write_frame(m);
    m.write_bytes(at, &structure);
}

// Goes to the procedure, in a machine that has the descriptor of the real caller's stack.
#[tactic(auto, unfolding(crate::specs::Callbacks::after_entering))]
fn go_to_procedure(m: &mut Machine, slot: u8, procedure: FarPtr, at: FarPtr)
    requires width { m.old.world.width ≢ None }
    requires depth { depth m.old.world < GREATEST_DEPTH }
    requires reachable { IsTrue (is_reachable m.old.world at structure_size true) }
    ensures { m.new.world ≡ after_entering m.old.world slot procedure at }
{
    let r = procedure_regs(m, procedure, at);
    write_both(m, slot, at);
    match push(m, &Record::Back { slot, at }) {
        Ok(()) => {
            m.set_regs(r);
            m.set_vif(false);
            m.set_mode(Mode::Protected);
        }
        Err(Deep) => unreachable!(),
    }
}

// Sets the descriptor, and goes to the procedure.
#[tactic(auto, unfolding(crate::specs::Callbacks::with_stack_row))]
fn start(m: &mut Machine, slot: u8, procedure: FarPtr, at: FarPtr)
    requires width { m.old.world.width ≢ None }
    requires depth { depth m.old.world < GREATEST_DEPTH }
    requires reachable { IsTrue (is_reachable (with_stack_row m.old.world) at structure_size true) }
    ensures { m.new.world ≡ after_entering (with_stack_row m.old.world) slot procedure at }
{
    set_stack_row(m);
    go_to_procedure(m, slot, procedure, at);
}

// The callback of a slot; none from slot 16 on.
#[tactic(auto, using(crate::proofs::Served::past_none))]
fn held_callback(m: &Machine, slot: u8) -> Option<(FarPtr, FarPtr)>
    ensures { result ≡ callback_of_slot m.now.world.callbacks slot }
{
    m.soundness();
    if u32::from(slot) < CALLBACKS {
        m.back(slot)
    } else {
        None
    }
}

/// Calls the callback of a slot, at whose trap byte a real-mode program arrived: the program's registers are written to the callback's
/// structure, and its procedure starts in protected mode with virtual interrupts off, on the host's stack of the depth, with DS:(E)SI as
/// the program's SS:SP and ES:(E)DI as the structure. `Stray` where the slot is free, else `Deep` at the greatest depth, else `BadFrame`
/// where the procedure can't be loaded as by a far jump, else `LostStructure` where the structure can't be written; an exit leaves the
/// machine as it was.
/// Source: DPMI 0.9, INT 31h function 0303h; the host's stacks, the depth and the exits are own.
#[tactic(auto, using(crate::proofs::StackAsked::held_width), unfolding(crate::specs::Callbacks::enter_callback))]
pub fn enter(m: &mut Machine, slot: u8) -> Result<(), Exit>
    requires { m.old.world.mode ≡ real }
    ensures { MatchResult result (λ _. enter_callback m.old.world slot ≡ Ok m.new.world)
        (λ exit. (enter_callback m.old.world slot ≡ Err exit) × (m.new ≡ m.old)) }
{
    m.soundness();
    let Some((procedure, at)) = held_callback(m, slot) else {
        return Err(Exit::Stray);
    };
    if depth(m) == DEEPEST {
        return Err(Exit::Deep);
    }
    if !is_loadable(m, procedure) {
        return Err(Exit::BadFrame);
    }
    if !is_writable(m, at) {
        return Err(Exit::LostStructure);
    }

    start(m, slot, procedure, at);
    Ok(())
}
