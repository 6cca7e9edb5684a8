// An exception at each width, the return from it, and the exits.
use crate::machines::{Differing, entered, has_words, same};
use client_world::limits::GREATEST_DEPTH;
use client_world::memory_map::{PROTECTED_STACK_SIZE, PROTECTED_STACKS};
use client_world::{Exit, Fault, Flags, Mode, Record, Regs, Width};
use fault_service::{back, deliver};
use guest_space::Machine;
use mode_stack::{depth, top};
use std::test::Fail;

// The client's registers: it runs at 0087h:0010h, with its stack at 008Fh:7800h. Its flags image is 0203h.
const CLIENT: Regs = Regs {
    esp: 0xABCD_7800,
    eip: 0x10,
    cs: 0x87,
    ss: 0x8F,
    flags: Flags {
        cf: true,
        ..Flags::CLEAR
    },
    ..Regs::ZERO
};

const FAULT: Fault = Fault {
    number: 0x0D,
    code: 0x1234_5678,
};

// Whether the exception is delivered in protected mode, or ends the client with this exit.
fn delivers(m: &mut Machine, answer: Result<(), Exit>) -> bool {
    m.mode() == Mode::Protected && deliver(m, FAULT) == answer
}

// Whether the handler, which pops its return address, two items of that many bytes, returns; or ends the client with this exit.
fn returns(m: &mut Machine, item: u8, answer: Result<(), Exit>) -> bool {
    let r = m.regs();
    m.set_regs(Regs {
        esp: r.esp % 0x1_0000 + 2 * u32::from(item),
        ..r
    });
    back(m) == answer
}

// A frame: ESP at the handler, words from an offset of the host's stacks on, the bytes of an item, and ESP after the return.
struct Frame {
    esp: u32,
    from: u32,
    words: &'static [u16],
    item: u8,
    esp_after: u32,
}

// The return address, the code, IP, CS, the flags, SP and SS.
const OF_WORDS: Frame = Frame {
    esp: 0x7F0,
    from: 0x7F0,
    words: &[0x322, 0x87, 0x5678, 0x10, 0x87, 0x203, 0x7800, 0x8F],
    item: 2,
    esp_after: 0x7800,
};

// The code lies after the return address.
const OF_DOUBLEWORDS: Frame = Frame {
    esp: 0x7E0,
    from: 0x7E8,
    words: &[0x5678, 0x1234],
    item: 4,
    esp_after: 0xABCD_7800,
};

fn compare_delivered(m: &mut Machine, frame: &Frame) -> Result<(), Differing> {
    m.set_regs(CLIENT);
    same(Differing::Call(1), delivers(m, Ok(())))?;
    let r = m.regs();
    let place = (r.cs, r.eip, r.ss, r.esp);
    same(
        Differing::Registers,
        place == (0x87, 0x30D, 0x8F, frame.esp),
    )?;
    same(Differing::Interrupts, !m.vif())?;
    let at = PROTECTED_STACKS + frame.from % 0x1_0000;
    same(Differing::Memory, has_words(m, at, frame.words))?;
    let record = Record::Exc {
        number: FAULT.number,
        code: FAULT.code,
    };
    same(Differing::Depth, top(m) == Some(record))
}

// The exception returns, once.
fn compare_returned(m: &mut Machine, frame: &Frame) -> Result<(), Differing> {
    same(Differing::Call(1), returns(m, frame.item, Ok(())))?;
    let after = Regs {
        esp: frame.esp_after,
        ..CLIENT
    };
    same(Differing::Registers, m.regs() == after)?;
    same(Differing::Interrupts, m.vif())?;
    same(Differing::Depth, depth(m) == 0)?;
    same(Differing::Call(2), returns(m, frame.item, Err(Exit::Stray)))
}

#[test]
fn a_frame_of_words_is_delivered_and_returns(rt: HostRuntime) -> Result<(), Fail> {
    let mut m = entered(rt.alloc(), Width::Sixteen)?;
    let delivered = compare_delivered(&mut m, &OF_WORDS);
    let returned = compare_returned(&mut m, &OF_WORDS);
    assert_eq!(rt; [delivered, returned], [Ok(()); 2]);
    Ok(())
}

#[test]
fn a_frame_of_doublewords_is_delivered_and_returns(rt: HostRuntime) -> Result<(), Fail> {
    let mut m = entered(rt.alloc(), Width::ThirtyTwo)?;
    let delivered = compare_delivered(&mut m, &OF_DOUBLEWORDS);
    let returned = compare_returned(&mut m, &OF_DOUBLEWORDS);
    assert_eq!(rt; [delivered, returned], [Ok(()); 2]);
    Ok(())
}

fn compare_depths(m: &mut Machine) -> Result<(), Differing> {
    m.set_regs(CLIENT);
    for _ in 0..GREATEST_DEPTH {
        same(Differing::Call(1), delivers(m, Ok(())))?;
    }
    let top = GREATEST_DEPTH * PROTECTED_STACK_SIZE - 16;
    same(Differing::Registers, m.regs().esp == top)?;
    same(Differing::Call(2), delivers(m, Err(Exit::Deep)))?;
    same(Differing::Depth, u32::from(depth(m)) == GREATEST_DEPTH)
}

#[test]
fn exceptions_end_at_the_greatest_depth(rt: HostRuntime) -> Result<(), Fail> {
    let mut m = entered(rt.alloc(), Width::Sixteen)?;
    assert_eq!(rt; compare_depths(&mut m), Ok(()));
    Ok(())
}
