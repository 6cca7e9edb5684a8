// Worked calls, one after another on one machine with a budget of 8 pages: what each returns, and the registers after it.
ghost use Rattle.std.specs.Prelude.{◌<◌};

use crate::machines::{Differing, compare_all, entered, same};
use block_services::serve;
use client_world::memory_map::PROTECTED_STACKS;
use client_world::{Carry, Mode, Regs, Width};
use guest_space::Machine;
use std::alloc::{AllocError, Global};
use std::test::Fail;

// AX, EBX, ECX, ESI, EDI of a call, and the last four after it, or AX where it is refused. AX stays for a number that the family doesn't
// have.
type Call = ([u32; 5], Result<[u32; 4], u32>);

const CALLS: [Call; 44] = [
    ([0x0501, 0, 0, 0, 0], Err(0x8021)),
    ([0x0501, 0, 0x8001, 0, 0], Err(0x8013)),
    (
        [0x0501, 0x9999_0000, 0x8888_0001, 0x7777_FFFF, 0x6666_FFFF],
        Ok([0x9999_0040, 0x8888_0000, 0x7777_0000, 0x6666_0001]),
    ),
    ([0x0501, 0, 0x2000, 9, 9], Ok([0x40, 0x1000, 0, 2])),
    ([0x0501, 0, 0x1001, 9, 9], Ok([0x40, 0x3000, 0, 3])),
    ([0x0502, 5, 5, 0, 2], Ok([5, 5, 0, 2])),
    ([0x0502, 0, 0, 0, 2], Err(0x8023)),
    ([0x0502, 0, 0, 0, 0], Err(0x8023)),
    ([0x0502, 0, 0, 1, 1], Err(0x8023)),
    ([0x0501, 0, 0x3000, 0, 0], Ok([0x40, 0x5000, 0, 2])),
    ([0x0503, 0, 0x1001, 0, 1], Ok([0x40, 0, 0, 1])),
    ([0x0600, 0x40, 0x3000, 0, 1], Ok([0x40, 0x3000, 0, 1])),
    ([0x0503, 0, 0x3000, 0, 3], Ok([0x40, 0x8000, 0, 3])),
    ([0x0601, 0x40, 0x8000, 0, 1], Ok([0x40, 0x8000, 0, 1])),
    ([0x0601, 0x40, 0x8000, 0, 1], Err(0x8021)),
    ([0x0503, 0, 0x3001, 0, 3], Err(0x8013)),
    ([0x0503, 0, 0, 0, 3], Err(0x8021)),
    ([0x0503, 0, 1, 0, 9], Err(0x8023)),
    ([0x0503, 0, 1, 0, 3], Ok([0x40, 0x8000, 0, 3])),
    ([0x0600, 0x10, 0xFFFF, 0, 1], Ok([0x10, 0xFFFF, 0, 1])),
    ([0x0600, 0x10, 0xFFFF, 0, 2], Err(0x8025)),
    ([0x0600, 0xFFFF, 0xFFFF, 0, 0], Ok([0xFFFF, 0xFFFF, 0, 0])),
    ([0x0600, 0xFFFF, 0xFFFF, 0, 2], Err(0x8025)),
    ([0x0600, 0x40, 0x0FFF, 0, 2], Ok([0x40, 0x0FFF, 0, 2])),
    ([0x0601, 0x40, 0x1000, 0, 1], Ok([0x40, 0x1000, 0, 1])),
    ([0x0601, 0x40, 0, 0, 0x2000], Err(0x8021)),
    ([0x0601, 0x40, 0, 0, 1], Ok([0x40, 0, 0, 1])),
    ([0x0601, 0x40, 0, 0, 1], Err(0x8021)),
    ([0x0602, 0, 0, 0, 1], Ok([0, 0, 0, 1])),
    ([0x0602, 0, 0, 0, 1], Err(0x8021)),
    ([0x0603, 0, 0, 0, 0x1001], Err(0x8021)),
    ([0x0603, 0, 0, 0, 1], Ok([0, 0, 0, 1])),
    ([0x0603, 0, 0, 0, 1], Err(0x8021)),
    ([0x0602, 0x10, 0xFFFF, 0, 2], Err(0x8025)),
    ([0x0602, 0x10, 0xFFFF, 0, 1], Ok([0x10, 0xFFFF, 0, 1])),
    (
        [0x0604, 0xAAAA_FFFF, 0xBBBB_FFFF, 3, 4],
        Ok([0xAAAA_0000, 0xBBBB_1000, 3, 4]),
    ),
    ([0x0702, 0x40, 0, 0, 0x2000], Ok([0x40, 0, 0, 0x2000])),
    ([0x0702, 0, 0, 0, 1], Err(0x8025)),
    ([0x0703, 0x40, 0, 0, 0x2001], Err(0x8025)),
    ([0x0703, 0x40, 0, 0, 0x2000], Ok([0x40, 0, 0, 0x2000])),
    ([0x0500, 0, 0, 0, 0], Err(0x8025)),
    ([0x0504, 0, 0, 0, 0], Err(0x0504)),
    ([0x0800, 0, 0, 0, 0], Err(0x0800)),
    ([0x0A00, 0, 0, 0, 0], Err(0x0A00)),
];

fn registers(call: [u32; 5]) -> Regs {
    let mut r = Regs::ZERO;
    r.eax = call[0];
    r.ebx = call[1];
    r.ecx = call[2];
    r.esi = call[3];
    r.edi = call[4];
    r
}

// Whether a call with these registers returns this.
fn returns(m: &mut Machine, r: Regs, carry: Carry) -> bool {
    m.set_regs(r);
    let ax = (r.eax % 0x1_0000) as u16;
    m.mode() == Mode::Protected && serve(m, ax) == carry
}

fn compare_call(m: &mut Machine, call: &Call) -> Result<(), Differing> {
    let (before, after) = *call;
    let [ax, ebx, ecx, esi, edi] = before;
    let (carry, eax, others) = match after {
        Ok(served) => (Carry::Clear, ax, served),
        Err(eax) => (Carry::Set, eax, [ebx, ecx, esi, edi]),
    };
    let is_returned = returns(m, registers(before), carry);
    same(Differing::Answer, is_returned)?;
    let r = m.regs();
    let is_left = r.eax == eax && [r.ebx, r.ecx, r.esi, r.edi] == others;
    same(Differing::Registers, is_left)
}

#[test]
fn calls_return_what_their_rows_say(rt: HostRuntime) -> Result<(), Fail> {
    let mut m = entered(rt.alloc(), Width::Sixteen)?;
    assert_eq!(rt; compare_all(&mut m, &CALLS, compare_call), Ok(()));
    Ok(())
}

// A machine of the greatest budget, 4000h pages.
#[tactic(auto, unfolding(host_memory::specs::Blank::blank_world))]
fn large_machine(alloc: Global) -> Result<Machine, AllocError> {
    let mut m = Machine::new(alloc, 0x4000)?;
    m.set_width(Width::Sixteen);
    m.set_mode(Mode::Protected);
    Ok(m)
}

// Eight blocks of 1F40h pages one after another fill the block region but for its last 600h pages. Each but the last shrinks to a page once
// the next is made, so no gap has 1F40h pages, and the first has 1F3Fh. The budget has more pages left.
const BARRED: [Call; 19] = [
    ([0x0501, 0x1F4, 0, 0, 0], Ok([0x40, 0, 0, 1])),
    ([0x0501, 0x1F4, 0, 0, 0], Ok([0x234, 0, 0, 2])),
    ([0x0503, 0, 1, 0, 1], Ok([0x40, 0, 0, 1])),
    ([0x0501, 0x1F4, 0, 0, 0], Ok([0x428, 0, 0, 3])),
    ([0x0503, 0, 1, 0, 2], Ok([0x234, 0, 0, 2])),
    ([0x0501, 0x1F4, 0, 0, 0], Ok([0x61C, 0, 0, 4])),
    ([0x0503, 0, 1, 0, 3], Ok([0x428, 0, 0, 3])),
    ([0x0501, 0x1F4, 0, 0, 0], Ok([0x810, 0, 0, 5])),
    ([0x0503, 0, 1, 0, 4], Ok([0x61C, 0, 0, 4])),
    ([0x0501, 0x1F4, 0, 0, 0], Ok([0xA04, 0, 0, 6])),
    ([0x0503, 0, 1, 0, 5], Ok([0x810, 0, 0, 5])),
    ([0x0501, 0x1F4, 0, 0, 0], Ok([0xBF8, 0, 0, 7])),
    ([0x0503, 0, 1, 0, 6], Ok([0xA04, 0, 0, 6])),
    ([0x0501, 0x1F4, 0, 0, 0], Ok([0xDEC, 0, 0, 8])),
    ([0x0503, 0, 1, 0, 7], Ok([0xBF8, 0, 0, 7])),
    ([0x0501, 0x1F4, 0, 0, 0], Err(0x8012)),
    ([0x0503, 0x1F4, 0x1000, 0, 1], Err(0x8012)),
    ([0x0501, 0x1F3, 0xF000, 0, 0], Ok([0x40, 0x1000, 0, 9])),
    ([0x0502, 0, 0, 0, 9], Ok([0, 0, 0, 9])),
];

// The call that makes a block of one page where eight are held: the first gap begins at 00401000h.
fn single_page(number: u32) -> Call
    requires { number < 504 }
{
    let base = 0x40_1000 + 0x1000 * number;
    (
        [0x0501, 0, 1, 0, 0],
        Ok([base / 0x1_0000, base % 0x1_0000, 0, 9 + number]),
    )
}

// So many that all 512 handles are held, and one more.
fn compare_handles(m: &mut Machine) -> Result<(), Differing> {
    for number in 0..504 {
        compare_call(m, &single_page(number))?;
    }
    compare_call(m, &([0x0501, 0, 1, 0, 0], Err(0x8016)))
}

#[test]
fn a_block_without_a_gap_or_a_handle_is_refused(rt: HostRuntime) -> Result<(), Fail> {
    let mut m = large_machine(rt.alloc())?;
    assert_eq!(rt; compare_all(&mut m, &BARRED, compare_call), Ok(()));
    assert_eq!(rt; compare_handles(&mut m), Ok(()));
    Ok(())
}

// The numbers of the table of function 0500h at ES:DI, at the start of the segment of the host's stacks.
const STACKS: u16 = 0x008F;

const TABLE: u32 = PROTECTED_STACKS;

fn number(m: &Machine, place: u32) -> u32
    requires { place < 12 }
{
    let at = TABLE + 4 * place;
    u32::from(m.dos16(at)) + 0x1_0000 * u32::from(m.dos16(at + 2))
}

// AX, BX, CX, SI, DI of a call, and the table after it.
const TABLES: [([u32; 5], [u32; 12]); 3] = [
    (
        [0x0604, 0, 0, 0, 0],
        [
            0x8000,
            8,
            8,
            0x1_0000,
            8,
            8,
            8,
            0x1_0000,
            0,
            0xFFFF_FFFF,
            0xFFFF_FFFF,
            0xFFFF_FFFF,
        ],
    ),
    (
        [0x0501, 0, 0x3000, 0, 0],
        [
            0x5000,
            5,
            5,
            0x1_0000,
            8,
            5,
            8,
            0xFFFD,
            0,
            0xFFFF_FFFF,
            0xFFFF_FFFF,
            0xFFFF_FFFF,
        ],
    ),
    (
        [0x0600, 0x40, 0x1000, 0, 1],
        [
            0x5000,
            5,
            5,
            0x1_0000,
            7,
            5,
            8,
            0xFFFD,
            0,
            0xFFFF_FFFF,
            0xFFFF_FFFF,
            0xFFFF_FFFF,
        ],
    ),
];

fn compare_table(m: &mut Machine, row: &([u32; 5], [u32; 12])) -> Result<(), Differing> {
    let (call, table) = *row;
    let asked = Regs {
        es: STACKS,
        ..registers([0x0500, 0, 0, 0, 0])
    };
    let is_made = returns(m, registers(call), Carry::Clear);
    let is_asked = returns(m, asked, Carry::Clear);
    same(Differing::Answer, is_made && is_asked)?;
    for (place, &wanted) in table.iter().enumerate() {
        same(Differing::Memory, number(m, place as u32) == wanted)?;
    }
    Ok(())
}

#[test]
fn the_table_gives_what_is_free(rt: HostRuntime) -> Result<(), Fail> {
    let mut m = entered(rt.alloc(), Width::Sixteen)?;
    assert_eq!(rt; compare_all(&mut m, &TABLES, compare_table), Ok(()));
    Ok(())
}
