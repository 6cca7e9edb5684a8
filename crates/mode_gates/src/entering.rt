// The entry to protected mode.
ghost use Rattle.std.specs.Prelude.{◌≡◌, ◌≢◌, ◌+◌, ◌<◌, ◌≤◌, ◌^◌, None, Some, Ok, Err, MatchResult, slice_set};
ghost use Rattle.client_world.specs.declared.host_frames.TheConstants.{DESCRIPTORS, FIRST_FREE_DESCRIPTOR};
ghost use Rattle.client_world.specs.declared.registers.Mode.TheVariants.{Real as real};
ghost use Rattle.client_world.specs.{declared.selectors.TheConstants.{ENTRY_ENVIRONMENT as the_environment}, Selector.{selector_of}};
ghost use Rattle.client_world.specs.Soundness.{IsPlainOrigin};
ghost use Rattle.guest_ram.specs.Bytes.{with_word};
ghost use Rattle.mode_gates.specs.Entry.{asked_width, code_of_segment, data_of_segment, after_first_entry, entry, entry_registers};
ghost use Rattle.mode_gates.specs.{Entry.{entry_rows, environment_word, host_rows}, Rows.{AreFreeFrom}};

use crate::far_frames::pop_far;
use client_world::memory_map::{PARAGRAPH_SIZE, PSP_SEGMENT, SEGMENT_SIZE};
use client_world::selectors::{
    ENTRY_CODE, ENTRY_DATA, ENTRY_ENVIRONMENT, ENTRY_PSP, ENTRY_STACK, selector_of,
};
use client_world::{Carry, Desc, Exit, Kind, Mode, Origin, Regs, Width};
use guest_space::Machine;
use service_rows::with_carry;

// Where the prefix has the segment of the environment.
const ENVIRONMENT_WORD: u32 = PSP_SEGMENT as u32 * PARAGRAPH_SIZE + 0x2C;

/// The width that bit 0 of AX asks for. Source: DPMI 0.9, INT 2Fh function 1687h.
pub fn asked_width(m: &Machine) -> Width
    ensures { result ≡ asked_width m.now.world }
{
    if m.regs().eax % 2 == 0 {
        Width::Sixteen
    } else {
        Width::ThirtyTwo
    }
}

// A descriptor of the code that starts at a real segment.
fn code_of_segment(segment: u16) -> Desc
    ensures { result ≡ code_of_segment segment }
{
    Desc::plain(
        Kind::Code,
        u32::from(segment) * PARAGRAPH_SIZE,
        0xFFFF,
        false,
    )
}

// A descriptor of the data that starts at a real segment.
fn data_of_segment(segment: u16, limit: u32, width: Width) -> Desc
    ensures { result ≡ data_of_segment segment limit width }
{
    Desc::plain(
        Kind::WRITABLE_DATA,
        u32::from(segment) * PARAGRAPH_SIZE,
        limit,
        width == Width::ThirtyTwo,
    )
}

// Puts a descriptor at the first index from which all are free.
#[tactic(auto, using(crate::proofs::SoundGates::may_put, crate::proofs::SoundGates::free_after))]
fn make(m: &mut Machine, index: u16, d: Desc, origin: Origin)
    requires width { m.old.world.width ≢ None }
    requires from { FIRST_FREE_DESCRIPTOR ≤ index }
    requires to { index < DESCRIPTORS }
    requires limit { d.limit < 2 ^ 20 }
    requires origin { IsPlainOrigin origin }
    requires free { AreFreeFrom m.old.world.descriptors index }
    ensures world { m.new.world
        ≡ record m.old.world { descriptors = slice_set m.old.world.descriptors index (Some (d, origin)) } }
    ensures free { AreFreeFrom m.new.world.descriptors (index + 1) }
{
    m.soundness();
    m.set_desc(index, Some((d, origin)));
}

// Sets the width, and makes the host's two descriptors. After them all are free.
#[tactic(auto, using(crate::proofs::SoundGates::free_at_first))]
fn make_host_rows(m: &mut Machine, width: Width)
    requires before { m.old.world.width ≡ None }
    ensures world { m.new.world ≡ record m.old.world {
      width = Some width;
      descriptors = host_rows m.old.world.descriptors width;
    } }
    ensures free { AreFreeFrom m.new.world.descriptors FIRST_FREE_DESCRIPTOR }
{
    m.soundness();
    m.set_width(width);
}

// Sets the width, and makes the seven descriptors.
#[tactic(auto, unfolding(crate::specs::Entry::entry_rows))]
fn make_rows(m: &mut Machine, width: Width)
    requires before { m.old.world.width ≡ None }
    ensures { m.new.world ≡ record m.old.world { width = Some width; descriptors = entry_rows m.old.world width } }
{
    let r = m.regs();
    let environment = m.dos16(ENVIRONMENT_WORD);
    make_host_rows(m, width);
    make(m, ENTRY_CODE, code_of_segment(r.cs), Origin::Entry);
    make(
        m,
        ENTRY_STACK,
        data_of_segment(r.ss, 0xFFFF, width),
        Origin::Entry,
    );
    make(
        m,
        ENTRY_DATA,
        data_of_segment(r.ds, 0xFFFF, width),
        Origin::Entry,
    );
    make(
        m,
        ENTRY_PSP,
        data_of_segment(PSP_SEGMENT, 0xFF, Width::Sixteen),
        Origin::Psp,
    );
    make(
        m,
        ENTRY_ENVIRONMENT,
        data_of_segment(environment, 0xFFFF, Width::Sixteen),
        Origin::Psp,
    );
}

// Puts the environment's selector into the prefix.
fn put_environment_selector(m: &mut Machine)
    ensures { m.new.world ≡ record m.old.world {
      dos = with_word m.old.world.dos environment_word (selector_of the_environment);
    } }
{
    let sel = selector_of(ENTRY_ENVIRONMENT);
    m.set_dos8(ENVIRONMENT_WORD, (sel % 0x100) as u8);
    m.set_dos8(ENVIRONMENT_WORD + 1, (sel / 0x100) as u8);
}

// The registers after the entry.
#[tactic(auto, unfolding(crate::specs::Entry::entry_registers))]
fn entry_registers(r: Regs) -> Regs
    ensures { result ≡ entry_registers r }
{
    Regs {
        cs: selector_of(ENTRY_CODE),
        ss: selector_of(ENTRY_STACK),
        ds: selector_of(ENTRY_DATA),
        es: selector_of(ENTRY_PSP),
        fs: 0,
        gs: 0,
        esp: r.esp % SEGMENT_SIZE,
        ..with_carry(false, r)
    }
}

// The first entry, with the return address popped.
#[tactic(auto, unfolding(crate::specs::Entry::after_first_entry))]
fn enter(m: &mut Machine, width: Width)
    requires before { m.old.world.width ≡ None }
    ensures { m.new.world ≡ after_first_entry m.old.world width }
{
    make_rows(m, width);
    put_environment_selector(m);
    m.set_mode(Mode::Protected);
    m.set_regs(entry_registers(m.regs()));
}

/// Serves a call of the entry to protected mode: the return address is popped, and the first call makes the client's descriptors and its
/// width, and goes on in protected mode; a later one sets carry and goes on in real mode. `BadFrame` where the return address can't be
/// popped, which leaves the machine as it was.
/// Source: DPMI 0.9, INT 2Fh function 1687h; that a later call is refused, and the exit, are own.
#[tactic(auto, unfolding(crate::specs::Entry::entry))]
pub fn entry(m: &mut Machine) -> Result<Carry, Exit>
    requires { m.old.world.mode ≡ real }
    ensures { MatchResult result (λ carry. entry m.old.world ≡ Ok (record { carry = carry; world = m.new.world }))
        (λ exit. (entry m.old.world ≡ Err exit) × (m.new ≡ m.old)) }
{
    pop_far(m)?;
    match m.width() {
        None => {
            let width = asked_width(m);
            enter(m, width);
            Ok(Carry::Clear)
        }
        Some(_) => {
            m.set_regs(with_carry(true, m.regs()));
            Ok(Carry::Set)
        }
    }
}
