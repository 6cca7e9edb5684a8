// A file, what it loads, and why others aren't loaded.
use crate::machines::{Differing, compare_all, has_bytes, has_words, same};
use client_world::LoadFault;
use guest_space::Machine;
use mz_loader::load;
use std::alloc::{AllocError, Global};
use std::test::Fail;

// A header of two paragraphs with one relocation after it, and an image of 6 bytes, whose last word the relocation names. The program
// needs 10h paragraphs more, and may use 20h.
const FILE: [u8; 38] = [
    b'M', b'Z', 38, 0, 1, 0, 1, 0, 2, 0, 0x10, 0, 0x20, 0, // to the maximum
    0x03, 0, 0x80, 0, 0, 0, 0x01, 0, 0x02, 0, 0x1C, 0, 0, 0, // SS, SP, the checksum, IP, CS, the relocation table
    4, 0, 0, 0, // the relocation
    0xB8, 0, 0x4C, 0x90, 0xFF, 0x01, // the image
];

// A machine into which it was loaded.
#[tactic(auto, unfolding(host_memory::specs::Blank::blank_world))]
fn loaded(alloc: Global, file: &[u8]) -> Result<(Machine, Result<(), LoadFault>), AllocError> {
    let mut machine = Machine::new(alloc, 1)?;
    let answer = load(&mut machine, file);
    Ok((machine, answer))
}

// Headers, the environment, the prefix and the image, by address.
const RUNS: [(u32, [u8; 6]); 8] = [
    (0x600, [b'M', 0x64, 0, 2, 0, 0]),
    (0x610, [0, 0, 1, 0, b'C', b':']),
    (0x630, [b'M', 0x64, 0, 0x31, 0, 0]),
    (0x640, [0xCD, 0x20, 0x95, 0, 0, 0]),
    (0x66C, [0x61, 0, 0, 0, 0, 0]),
    (0x6C0, [0, 0x0D, 0, 0, 0, 0]),
    (0x740, [0xB8, 0, 0x4C, 0x90, 0x73, 0x02]),
    (0x950, [b'Z', 0, 0, 0x6A, 0x9F, 0]),
];

fn compare_run(m: &mut Machine, run: &(u32, [u8; 6])) -> Result<(), Differing> {
    let (from, bytes) = run;
    same(Differing::Memory, has_bytes(m, *from, bytes))
}

#[test]
fn a_client_starts_where_its_file_says(rt: HostRuntime) -> Result<(), Fail> {
    let (mut m, answer) = loaded(rt.alloc(), &FILE)?;
    assert!(rt; answer.is_ok());
    let r = m.regs();
    assert!(rt; [r.cs, r.ss, r.ds, r.es] == [0x76, 0x77, 0x64, 0x64]);
    assert!(rt; [r.eip, r.esp] == [0x01, 0x80]);
    assert_eq!(rt; compare_all(&mut m, &RUNS, compare_run), Ok(()));
    Ok(())
}

// A byte of the file that is another one, and why it isn't loaded then.
const CHANGES: [(usize, u8, LoadFault); 6] = [
    (1, b'X', LoadFault::Signature),
    (3, 2, LoadFault::LastPage),
    (0x18, 0x23, LoadFault::RelocTable),
    (0x0B, 0xA0, LoadFault::NoRoom),
    (0x1F, 0x10, LoadFault::RelocTarget),
    (0x17, 0x10, LoadFault::EntryOutside),
];

// The number of the first change whose file isn't refused for that.
fn first_differing(alloc: Global) -> Result<Option<usize>, AllocError> {
    for (number, &(at, byte, fault)) in CHANGES.iter().enumerate() {
        let mut file = FILE;
        file[at % FILE.len()] = byte;
        let (_, answer) = loaded(alloc, &file)?;
        if answer != Err(fault) {
            return Ok(Some(number));
        }
    }
    Ok(None)
}

#[test]
fn other_files_are_refused(rt: HostRuntime) -> Result<(), Fail> {
    let (_, answer) = loaded(rt.alloc(), &FILE[..27])?;
    assert!(rt; answer == Err(LoadFault::ShortHeader));
    assert_eq!(rt; first_differing(rt.alloc())?, None);
    Ok(())
}

// A file of 512 bytes with one page: its image is all that is after the header, 480 bytes, which begin at 740h.
fn whole_page(last: u8, more: u8) -> [u8; 512] {
    let mut file = [0; 512];
    file[..32].copy_from_slice(&FILE[..32]);
    file[2] = last;
    file[3] = more;
    file[6] = 0;
    for at in 32..512 {
        file[at] = (at % 251) as u8;
    }
    file
}

// A last page of 0 bytes is a whole one, as one of 512, and 513 are more than a page has: the two bytes of the header.
const WHOLE_PAGES: [(u8, u8, Result<(), LoadFault>); 3] = [
    (0, 0, Ok(())),
    (0, 2, Ok(())),
    (1, 2, Err(LoadFault::LastPage)),
];

// Whether a file with that last page is answered so, and its image is there where it is loaded.
fn is_whole_page_loaded(
    alloc: Global,
    last: u8,
    more: u8,
    wanted: Result<(), LoadFault>,
) -> Result<bool, AllocError> {
    let file = whole_page(last, more);
    let (m, answer) = loaded(alloc, &file)?;
    Ok(answer == wanted && (answer.is_err() || has_bytes(&m, 0x740, &file[32..])))
}

#[test]
fn a_whole_page_is_told_in_two_ways(rt: HostRuntime) -> Result<(), Fail> {
    let mut wrong = None;
    for (row, (last, more, answer)) in WHOLE_PAGES.iter().enumerate() {
        if !is_whole_page_loaded(rt.alloc(), *last, *more, *answer)? {
            wrong = Some(row);
        }
    }
    assert_eq!(rt; wrong, None);
    Ok(())
}

// The same file with a maximum of 10h paragraphs, whose image is 6 bytes: the program has 33 paragraphs: 10h of its prefix, 1 of its image
// and 10h more. They are told at 3 in its header paragraph, 630h. At 2 in its prefix, 640h, their end is told, paragraph 64h + 33 = 85h.
// There, 272 bytes after 740h, is the header of the free ones up to 9FFFh, 9F7Ah. A relocation in the last word of the 272 bytes, at 10Eh,
// makes it 74h, the segment of the image; a byte further it is refused.
const RELOCATIONS: [(u8, u8, Result<(), LoadFault>, u16); 3] = [
    (0, 0, Ok(()), 0),
    (1, 0x0E, Ok(()), 0x74),
    (1, 0x0F, Err(LoadFault::RelocTarget), 0),
];

// Whether a file with so many relocations, the first at 0000h:01xxh, is answered so, and has this word where it is loaded.
fn is_relocated(
    alloc: Global,
    row: &(u8, u8, Result<(), LoadFault>, u16),
) -> Result<bool, AllocError> {
    let (count, offset, wanted, word) = *row;
    let mut file = FILE;
    file[0x06] = count;
    file[0x0C] = 0x10;
    file[0x1C] = offset;
    file[0x1D] = 1;
    file[0x1E] = 0;
    let (m, answer) = loaded(alloc, &file)?;
    Ok(
        answer == wanted
            && (answer.is_err()
                || has_words(&m, 0x633, &[33])
                    && has_words(&m, 0x642, &[0x85])
                    && has_words(&m, 0x84E, &[word])
                    && has_words(&m, 0x853, &[0x9F7A])),
    )
}

#[test]
fn a_program_has_33_paragraphs(rt: HostRuntime) -> Result<(), Fail> {
    let mut wrong = None;
    for (number, row) in RELOCATIONS.iter().enumerate() {
        if !is_relocated(rt.alloc(), row)? {
            wrong = Some(number);
        }
    }
    assert_eq!(rt; wrong, None);
    Ok(())
}
