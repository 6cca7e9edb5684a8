// Which watchpoints an instruction hits, and which rounds are the timer's interrupt.
use crate::machines::{Differing, put, same};
use client_world::limits::MAX_STEPS;
use client_world::{Carry, Exit, Regs};
use guest_space::Machine;
use host_run::Host;
use std::test::Fail;
use timer_run::Timer;
use watch_run::Watches;

// At 10000h, where DS is 2000h: MOV [0100h],AL, which writes the byte at 20100h.
const CODE: [u8; 3] = [0xA2, 0x00, 0x01];

// BX, CX and DX of function 0B00h. For executing: at 10000h, 2 bytes from FFFFh on, 4 bytes from 10001h on. For writing: at 20100h, 4 bytes
// from 200FDh on, at 20101h. For reading or writing: at 20100h, and at 10000h, where the instruction is only fetched.
const WATCHPOINTS: [[u32; 3]; 8] = [
    [0x0001, 0x0000, 0x0001],
    [0x0000, 0xFFFF, 0x0002],
    [0x0001, 0x0001, 0x0004],
    [0x0002, 0x0100, 0x0101],
    [0x0002, 0x00FD, 0x0104],
    [0x0002, 0x0101, 0x0101],
    [0x0002, 0x0100, 0x0201],
    [0x0001, 0x0000, 0x0201],
];

fn set_watchpoint(
    m: &mut Machine,
    watches: &mut Watches,
    words: &[u32; 3],
) -> Result<(), Differing> {
    let [ebx, ecx, edx] = *words;
    m.set_regs(Regs {
        eax: 0x0B00,
        ebx,
        ecx,
        edx,
        cs: 0x1000,
        ds: 0x2000,
        ..Regs::ZERO
    });
    let (_, carry) = watches.serve(m);
    same(Differing::Answer, carry == Carry::Clear)
}

fn hits(m: &mut Machine) -> Result<u16, Differing> {
    let mut watches = Watches::new();
    for words in &WATCHPOINTS {
        set_watchpoint(m, &mut watches, words)?;
    }
    Ok(watches.hits(m))
}

// The first, the second, the fourth, the fifth and the seventh.
#[test]
fn an_instruction_hits_what_it_runs_and_what_it_writes(rt: HostRuntime) -> Result<(), Fail> {
    let mut m = Machine::new(rt.alloc(), 8)?;
    put(&mut m, 0x1_0000, &CODE);
    assert_eq!(rt; hits(&mut m), Ok(0x5B));
    Ok(())
}

// Whether the next round is the timer's interrupt; `None` where the host may make no more turns.
fn is_interrupt(timer: &mut Timer, host: &mut Host) -> Option<Result<bool, Exit>> {
    if host.steps() < MAX_STEPS {
        Some(timer.before(host))
    } else {
        None
    }
}

// The handler of real mode, at F0008h, starts with virtual interrupts off: the next interrupt waits.
#[test]
fn the_timer_interrupts_a_client_whose_interrupts_are_on(rt: HostRuntime) -> Result<(), Fail> {
    let mut host = Host::new(rt.alloc(), 8, &[], 0)?;
    let mut timer = Timer::new(2);
    let first = is_interrupt(&mut timer, &mut host);
    let second = is_interrupt(&mut timer, &mut host);
    let third = is_interrupt(&mut timer, &mut host);
    let fourth = is_interrupt(&mut timer, &mut host);
    assert_eq!(rt;
        [first, second, third, fourth],
        [
            Some(Ok(false)),
            Some(Ok(true)),
            Some(Ok(false)),
            Some(Ok(false))
        ]
    );
    Ok(())
}
