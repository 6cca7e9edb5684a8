// What a memory is. Its other tests are in `unit_tests`.
use crate::{FRAME_SIZE, Ram};
use std::alloc::Global;
use std::test::Fail;

// All fields of a memory, with their types: with one more this isn't compiled.
fn parts(ram: &Ram) -> (&*mut u8, &u32, &Global) {
    let Ram {
        block,
        frames,
        alloc,
    } = ram;
    (block, frames, alloc)
}

#[test]
fn a_memory_is_one_block_and_its_length(rt: HostRuntime) -> Result<(), Fail> {
    let ram = Ram::new(rt.alloc(), 3)?;
    let (_, frames, _) = parts(&ram);
    assert!(rt; *frames == 3 && ram.len() == 3 * FRAME_SIZE);
    Ok(())
}
