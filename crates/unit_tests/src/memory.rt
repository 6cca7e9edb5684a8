// A memory of one frame.
ghost use Rattle.std.specs.Prelude.{◌≡◌, length};

use crate::compare::same;
use guest_ram::{FRAME_SIZE, Ram};
use std::test::Fail;

fn compare_words(ram: &mut Ram) -> Result<(), &'static str>
    requires { length ram.old ≡ 4096 }
{
    same("length", ram.len() == 4096)?;
    same("the last word", ram.get16(FRAME_SIZE - 2) == 0)?;
    ram.set16(0x10, 0x1234);
    ram.set8(0x12, 0xFF);
    same("the low byte", ram.get8(0x10) == 0x34)?;
    same("the high byte", ram.get8(0x11) == 0x12)?;
    same("the word one further", ram.get16(0x11) == 0xFF12)
}

fn compare_doublewords(ram: &mut Ram) -> Result<(), &'static str>
    requires { length ram.old ≡ 4096 }
{
    ram.set32(0x20, 0x1234_5678);
    same("the first byte", ram.get8(0x20) == 0x78)?;
    same("the high word", ram.get16(0x22) == 0x1234)?;
    same("the doubleword one further", ram.get32(0x21) == 0x0012_3456)
}

#[test]
fn words_stand_least_byte_first(rt: HostRuntime) -> Result<(), Fail> {
    let mut ram = Ram::new(rt.alloc(), 1)?;
    compare_words(&mut ram)?;
    Ok(())
}

#[test]
fn doublewords_stand_least_byte_first(rt: HostRuntime) -> Result<(), Fail> {
    let mut ram = Ram::new(rt.alloc(), 1)?;
    compare_doublewords(&mut ram)?;
    Ok(())
}

// The bytes from 40h on.
fn compare_at_40(ram: &Ram, four: u32, next: u16) -> Result<(), &'static str>
    requires { length ram.now ≡ 4096 }
{
    same("four bytes", ram.get32(0x40) == four)?;
    same("what follows", ram.get16(0x44) == next)
}

// The two ranges overlap, upward and then downward.
fn compare_runs(ram: &mut Ram) -> Result<(), &'static str>
    requires { length ram.old ≡ 4096 }
{
    ram.write(0x40, &[1, 2, 3, 4]);
    ram.copy(0x40, 0x42, 4);
    compare_at_40(ram, 0x0201_0201, 0x0403)?;
    same("a run", ram.get(0x41) == [2, 1, 2, 3, 4])?;
    ram.copy(0x42, 0x41, 4);
    compare_at_40(ram, 0x0302_0101, 0x0404)?;
    ram.fill(0x41, 3, 0xAA);
    compare_at_40(ram, 0xAAAA_AA01, 0x0404)
}

#[test]
fn runs_are_put_copied_and_filled(rt: HostRuntime) -> Result<(), Fail> {
    let mut ram = Ram::new(rt.alloc(), 1)?;
    compare_runs(&mut ram)?;
    Ok(())
}

#[test]
fn a_copy_moves_the_bytes_as_they_were(rt: HostRuntime) -> Result<(), Fail> {
    let mut ram = Ram::new(rt.alloc(), 1)?;
    ram.write(0, &[0, 1, 2, 3, 4, 5, 6, 7, 8, 9, 10, 11]);
    ram.copy(0, 4, 8);
    let bytes = ram.get(0);
    same("bytes", bytes == [0, 1, 2, 3, 0, 1, 2, 3, 4, 5, 6, 7])?;
    Ok(())
}

// Each gives its block back once.
#[test]
fn memories_are_made_and_dropped(rt: HostRuntime) -> Result<(), Fail> {
    for _ in 0..300 {
        let ram = Ram::new(rt.alloc(), 64)?;
        same("a byte", ram.get8(FRAME_SIZE) == 0)?;
    }
    Ok(())
}
