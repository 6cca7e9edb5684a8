// The calls on blocks of DOS memory.
ghost use Rattle.std.specs.Prelude.{◌≡◌};
ghost use Rattle.dos_calls.specs.{Calls.{allocate, free, with_memory_error, resize}, Answering.{Serves}};

use crate::registers::{refuse, set_carry};
use client_world::{DosRefusal, low_half};
use dos_blocks::{NO_MEMORY, WRONG_BLOCK, dos_alloc, dos_free, dos_resize};
use guest_space::Machine;
use service_rows::{set_ax, set_bx};

// Answers a refusal: where there is no room BX is the most paragraphs that there could be.
fn refuse_memory(m: &mut Machine, refusal: DosRefusal)
    ensures { m.new.world ≡ with_memory_error refusal m.old.world }
{
    match refusal {
        DosRefusal::NoMemory { largest } => {
            set_bx(m, largest);
            refuse(m, NO_MEMORY);
        }
        DosRefusal::WrongBlock => refuse(m, WRONG_BLOCK),
    }
}

/// Function 48h: BX paragraphs; AX is the segment, or BX the most that there are.
#[tactic(auto, unfolding(crate::specs::Calls::allocate))]
pub(crate) fn allocate(m: &mut Machine)
    ensures { Serves allocate m.old.world m.new.world }
{
    let paras = low_half(m.regs().ebx);
    match dos_alloc(m, paras, false) {
        Ok(segment) => {
            set_ax(m, segment);
            set_carry(m, false);
        }
        Err(refusal) => refuse_memory(m, refusal),
    }
}

/// Function 49h: the block at ES becomes free.
#[tactic(auto, unfolding(crate::specs::Calls::free))]
pub(crate) fn free(m: &mut Machine)
    ensures { Serves free m.old.world m.new.world }
{
    let segment = m.regs().es;
    match dos_free(m, segment, false) {
        Ok(()) => set_carry(m, false),
        Err(refusal) => refuse_memory(m, refusal),
    }
}

/// Function 4Ah: the block at ES gets BX paragraphs, or BX becomes the most that it can have.
#[tactic(auto, unfolding(crate::specs::Calls::resize))]
pub(crate) fn resize(m: &mut Machine)
    ensures { Serves resize m.old.world m.new.world }
{
    let r = m.regs();
    match dos_resize(m, r.es, low_half(r.ebx), false) {
        Ok(()) => set_carry(m, false),
        Err(refusal) => refuse_memory(m, refusal),
    }
}
