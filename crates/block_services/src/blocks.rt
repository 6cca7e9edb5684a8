// Memory blocks made, freed and given another size.
ghost use Rattle.std.specs.Prelude.{◌≡◌, ◌≢◌, ◌≤◌, ◌<◌, ◌+◌, ◌*◌, ◌^◌, MatchResult, None, Some};
ghost use Rattle.client_world.specs.{declared.host_frames.TheConstants.{PAGE_SIZE}, declared.limits.TheConstants.{MAX_PAGES}};
ghost use Rattle.client_world.specs.{declared.memory_map.TheConstants.{BLOCK_REGION_PAGES}, World.{block_at, base_of_block}};
ghost use Rattle.service_rows.specs.{declared.refusal.Refusal.TheVariants.{LinearMemoryUnavailable as no_gap}, Reasons.{Does}};
ghost use Rattle.block_services.specs.Rows.{allocate_block, with_block_outputs, free_block, free_pages, si_di, new_base, resize_block};
ghost use Rattle.block_services.specs.Rows.{bx_cx};

use crate::gaps::{first_gap, is_gap, lowest_handle, page_address, row_of};
use crate::regions::pages_rounded_up;
use client_world::{high_half, low_half, two_words, with_low_half};
use guest_space::Machine;
use service_rows::Refusal;

/// The number in SI and DI.
pub(crate) fn si_di(m: &Machine) -> u32
    ensures { result ≡ si_di m.now.world }
{
    let r = m.regs();
    two_words(low_half(r.esi), low_half(r.edi))
}

/// The number in BX and CX.
pub(crate) fn bx_cx(m: &Machine) -> u32
    ensures { result ≡ bx_cx m.now.world }
{
    let r = m.regs();
    two_words(low_half(r.ebx), low_half(r.ecx))
}

/// The number of pages that the budget has left.
pub(crate) fn free_pages(m: &Machine) -> u32
    ensures free { result ≡ free_pages m.now.world }
    ensures few { result ≤ MAX_PAGES }
{
    m.soundness();
    m.budget() - m.pages_used()
}

// Sets the outputs: a block's linear address and its handle.
fn set_outputs(m: &mut Machine, base: u32, handle: u32)
    ensures { m.new.world ≡ with_block_outputs base handle m.old.world }
{
    let mut r = m.regs();
    r.ebx = with_low_half(r.ebx, high_half(base));
    r.ecx = with_low_half(r.ecx, low_half(base));
    r.esi = with_low_half(r.esi, high_half(handle));
    r.edi = with_low_half(r.edi, low_half(handle));
    m.set_regs(r);
}

/// Function 0501h: makes a block of BX:CX bytes.
#[tactic(auto, unfolding(crate::specs::Rows::allocate_block))]
pub(crate) fn allocate_block(m: &mut Machine) -> Result<(), Refusal>
    requires { m.old.world.width ≢ None }
    ensures { Does (allocate_block m.old.world) result m.old m.new }
{
    let size = bx_cx(m);
    if size == 0 {
        return Err(Refusal::InvalidValue);
    }
    let pages = pages_rounded_up(size);
    if free_pages(m) < pages {
        return Err(Refusal::PhysicalMemoryUnavailable);
    }
    let page = first_gap(m, pages)?;
    let handle = lowest_handle(m)?;
    m.soundness();
    let base = page_address(page);
    m.block_make(handle, base, pages);
    set_outputs(m, base, u32::from(handle));
    Ok(())
}

// The address of the block of a handle once it has that many pages.
#[tactic(auto, unfolding(crate::specs::Rows::new_base))]
fn new_base(m: &Machine, handle: u32, at: u32, pages: u32) -> Result<u32, Refusal>
    requires at { at ≡ base_of_block (block_at m.now.world.blocks handle) }
    requires run { at + PAGE_SIZE * pages < 2 ^ 32 }
    requires some { 0 < pages }
    requires few { pages ≤ BLOCK_REGION_PAGES + MAX_PAGES }
    ensures { MatchResult result
        (λ base. new_base m.now.world.blocks handle pages ≡ Some base)
        (λ refusal. (new_base m.now.world.blocks handle pages ≡ None) × (refusal ≡ no_gap)) }
{
    if is_gap(m, handle, at, pages) {
        return Ok(at);
    }
    let page = first_gap(m, pages)?;
    Ok(page_address(page))
}

/// Function 0502h: frees the block of handle SI:DI.
#[tactic(auto, unfolding(crate::specs::Rows::free_block))]
pub(crate) fn free_block(m: &mut Machine) -> Result<(), Refusal>
    ensures { Does (free_block m.old.world) result m.old m.new }
{
    let handle = si_di(m);
    match row_of(m, handle) {
        Some(_) => {
            m.block_drop(handle as u16);
            Ok(())
        }
        None => Err(Refusal::InvalidHandle),
    }
}

/// Function 0503h: the block of handle SI:DI gets BX:CX bytes.
#[tactic(auto, unfolding(crate::specs::Rows::resize_block))]
pub(crate) fn resize_block(m: &mut Machine) -> Result<(), Refusal>
    ensures { Does (resize_block m.old.world) result m.old m.new }
{
    let handle = si_di(m);
    match row_of(m, handle) {
        Some(row) => {
            let size = bx_cx(m);
            if size == 0 {
                return Err(Refusal::InvalidValue);
            }
            let pages = pages_rounded_up(size);
            if free_pages(m) < pages.saturating_sub(row.pages) {
                return Err(Refusal::PhysicalMemoryUnavailable);
            }
            let base = new_base(m, handle, row.base, pages)?;
            m.soundness();
            m.block_size(handle as u16, base, pages);
            set_outputs(m, base, handle);
            Ok(())
        }
        None => Err(Refusal::InvalidHandle),
    }
}
