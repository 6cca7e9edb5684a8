// Worked calls, one after another on one machine: what each returns, and the registers after it.
use crate::machines::{Differing, compare_all, entered, same};
use client_world::{Carry, Mode, Regs, Width};
use guest_space::Machine;
use std::test::Fail;
use vector_services::serve;

// EAX, EBX, ECX, EDX of a call, and the same after it, or EAX where it is refused; EAX stays for a number that the family doesn't have.
// 0087h is the selector of index 16, the host's code; 008Fh is that of index 17, its stacks. At the start real vector n is F000h:n,
// protected-mode vector n 0087h:0200h+n, exception vector n 0087h:0300h+n, and interrupts are enabled.
type Call = ([u32; 4], Result<[u32; 4], u32>);

const CALLS: [Call; 22] = [
    (
        [0x7777_0400, 0x1111_FFFF, 0x2222_AABB, 0x3333_FFFF],
        Ok([0x7777_005A, 0x1111_0001, 0x2222_AA03, 0x3333_0870]),
    ),
    (
        [0x0200, 0x21, 0xAAAA_FFFF, 0xBBBB_FFFF],
        Ok([0x0200, 0x21, 0xAAAA_F000, 0xBBBB_0021]),
    ),
    (
        [0x0201, 0x21, 0x5555_1234, 0x6666_5678],
        Ok([0x0201, 0x21, 0x5555_1234, 0x6666_5678]),
    ),
    ([0x0200, 0x21, 0, 0], Ok([0x0200, 0x21, 0x1234, 0x5678])),
    ([0x0200, 0x22, 7, 7], Ok([0x0200, 0x22, 0xF000, 0x0022])),
    ([0x0203, 0x20, 0x0087, 0], Err(0x8021)),
    ([0x0203, 0x1F, 0x008F, 0], Err(0x8022)),
    ([0x0203, 0x1F, 0x0084, 0], Err(0x8022)),
    ([0x0203, 0x1F, 0x00B7, 0], Err(0x8022)),
    (
        [0x0203, 0x1F, 0x0087, 0x1_2345],
        Ok([0x0203, 0x1F, 0x0087, 0x1_2345]),
    ),
    ([0x0202, 0x20, 0, 0], Err(0x8021)),
    (
        [0x0202, 0x1F, 0x9999_0000, 0xFFFF_0000],
        Ok([0x0202, 0x1F, 0x9999_0087, 0xFFFF_2345]),
    ),
    ([0x0205, 0xFF, 0x0086, 0], Err(0x8022)),
    (
        [0x0205, 0xFF, 0x0087, 0xFFFF],
        Ok([0x0205, 0xFF, 0x0087, 0xFFFF]),
    ),
    (
        [0x0204, 0xFF, 0, 0x1_0000],
        Ok([0x0204, 0xFF, 0x0087, 0x1_FFFF]),
    ),
    ([0x0204, 0x1F, 5, 5], Ok([0x0204, 0x1F, 0x0087, 0x021F])),
    ([0x0900, 0, 0, 0], Ok([0x0901, 0, 0, 0])),
    ([0x0901, 0, 0, 0], Ok([0x0900, 0, 0, 0])),
    ([0x0902, 0, 0, 0], Ok([0x0901, 0, 0, 0])),
    ([0x0900, 0, 0, 0], Ok([0x0901, 0, 0, 0])),
    ([0x0206, 0, 0, 0], Err(0x0206)),
    ([0x0A00, 0, 0, 0], Err(0x0A00)),
];

// The same for a client of 32 bits.
const WIDE_CALLS: [Call; 3] = [
    (
        [0x0205, 8, 0x1111_0087, 0x0001_2345],
        Ok([0x0205, 8, 0x1111_0087, 0x0001_2345]),
    ),
    (
        [0x0204, 8, 0x2222_0000, 0xFFFF_FFFF],
        Ok([0x0204, 8, 0x2222_0087, 0x0001_2345]),
    ),
    ([0x0202, 0, 0, 0xFFFF_FFFF], Ok([0x0202, 0, 0x0087, 0x0300])),
];

fn registers(call: [u32; 4]) -> Regs {
    let mut r = Regs::ZERO;
    r.eax = call[0];
    r.ebx = call[1];
    r.ecx = call[2];
    r.edx = call[3];
    r
}

fn compare(m: &mut Machine, call: &Call) -> Result<(), Differing> {
    let (before, after) = *call;
    let (carry, wanted) = match after {
        Ok(served) => (Carry::Clear, served),
        Err(eax) => (Carry::Set, [eax, before[1], before[2], before[3]]),
    };
    m.set_regs(registers(before));
    let ax = (before[0] % 0x1_0000) as u16;
    same(Differing::Answer, serve(m, ax) == carry)?;
    let r = m.regs();
    same(Differing::Registers, [r.eax, r.ebx, r.ecx, r.edx] == wanted)
}

#[test]
fn calls_return_what_their_rows_say(rt: HostRuntime) -> Result<(), Fail> {
    let mut m = entered(rt.alloc(), Width::Sixteen)?;
    assert_eq!(rt; compare_all(&mut m, &CALLS, compare), Ok(()));
    Ok(())
}

#[test]
fn calls_of_wide_clients_do_too(rt: HostRuntime) -> Result<(), Fail> {
    let mut m = entered(rt.alloc(), Width::ThirtyTwo)?;
    assert_eq!(rt; compare_all(&mut m, &WIDE_CALLS, compare), Ok(()));
    Ok(())
}
