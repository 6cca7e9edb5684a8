// Descriptors that the services make and ask for.
ghost use Rattle.std.specs.Prelude.{◌≡◌, IfSome};
ghost use Rattle.client_world.specs.FreeRuns.{IsFirstFreeRunOf};
ghost use Rattle.service_rows.specs.{FreeRun.{first_free_run}, Rows.{data_at, is_code_selector, is_present_code}};

use client_world::selectors::{CLIENT_PRIVILEGE, privilege_of};
use client_world::{Desc, Kind, Origin};
use guest_space::Machine;

/// Writable data that is present, at a linear address, with a limit in bytes below 100000h. Source: own.
pub fn data_at(base: u32, limit: u32) -> Desc
    ensures { result ≡ data_at base limit }
{
    Desc::plain(Kind::WRITABLE_DATA, base, limit, false)
}

// Whether a descriptor row holds present code.
fn is_present_code(row: Option<(Desc, Origin)>) -> bool
    ensures { result ≡ is_present_code row }
{
    match row {
        Some((d, _)) => d.kind.is_code() && d.present,
        None => false,
    }
}

/// Whether a selector is a code selector: its requested privilege level is 3, and its descriptor is present code. Source: own.
pub fn is_code_selector(m: &Machine, sel: u16) -> bool
    ensures { result ≡ is_code_selector m.now.world sel }
{
    privilege_of(sel) == CLIENT_PRIVILEGE && is_present_code(m.desc_of(sel))
}

/// The first index from 64 on at which n indices one after another are free. `None` where n is 0 or there is no such run.
/// Source: DPMI 0.9, INT 31h function 0000h; that runs are sought from index 64 on is own.
pub fn first_free(m: &Machine, n: u16) -> Option<u16>
    ensures found { result ≡ first_free_run m.now.world.descriptors n }
    ensures first { IfSome result (λ first. IsFirstFreeRunOf m.now.world.descriptors first n) }
{
    m.free_descs(n)
}
