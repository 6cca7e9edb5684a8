// The header of an MZ file.
ghost use Rattle.std.specs.Prelude.{◌≡◌, ◌+◌, ◌≤◌, length};
ghost use Rattle.guest_ram.specs.Bytes.{word_of};
ghost use Rattle.mz_loader.specs.Header.{last_page, pages, relocations, minimum, maximum, relocation_table, header_length, declared_length};
ghost use Rattle.mz_loader.specs.Header.{image_length, image_paras, needed_paras, block_paras, most_paras, psp_paras};
ghost use Rattle.mz_loader.specs.Refusal.{header_bytes};

use byteorder::{ByteOrder, LittleEndian};
use client_world::memory_map::{ARENA_END, PARAGRAPH_SIZE, PSP_SEGMENT};

/// The bytes of a header.
pub(crate) const HEADER_BYTES: usize = 28;

/// The bytes of a page of the file.
pub(crate) const PAGE_BYTES: u16 = 512;

/// The paragraphs of a program segment prefix.
pub(crate) const PSP_PARAS: u32 = 16;

/// The most paragraphs of a program block: all from the prefix on.
pub(crate) const MOST_PARAS: u32 = ARENA_END - PSP_SEGMENT as u32;

/// The most bytes of a program block after its prefix.
pub(crate) const MOST_BYTES: u32 = PARAGRAPH_SIZE * (MOST_PARAS - PSP_PARAS);

/// The word at an address of the file.
#[tactic(auto, using(crate::proofs::Relocating::little_word))]
pub(crate) fn word_of(file: &[u8], at: usize) -> u16
    requires { at + 2 ≤ length file.now }
    ensures { result ≡ word_of file.now at }
{
    LittleEndian::read_u16(&file[at..])
}

/// The bytes of the last page, 0 where it is whole.
pub(crate) fn last_page(file: &[u8]) -> u16
    requires { header_bytes ≤ length file.now }
    ensures { result ≡ last_page file.now }
{
    word_of(file, 0x02)
}

/// The pages of header and image.
pub(crate) fn pages(file: &[u8]) -> u16
    requires { header_bytes ≤ length file.now }
    ensures { result ≡ pages file.now }
{
    word_of(file, 0x04)
}

/// The number of relocations.
pub(crate) fn relocations(file: &[u8]) -> u16
    requires { header_bytes ≤ length file.now }
    ensures { result ≡ relocations file.now }
{
    word_of(file, 0x06)
}

// The paragraphs that the program needs after its image.
fn minimum(file: &[u8]) -> u16
    requires { header_bytes ≤ length file.now }
    ensures { result ≡ minimum file.now }
{
    word_of(file, 0x0A)
}

// The paragraphs that it may use there.
fn maximum(file: &[u8]) -> u16
    requires { header_bytes ≤ length file.now }
    ensures { result ≡ maximum file.now }
{
    word_of(file, 0x0C)
}

/// Where the relocations lie in the file.
pub(crate) fn relocation_table(file: &[u8]) -> u16
    requires { header_bytes ≤ length file.now }
    ensures { result ≡ relocation_table file.now }
{
    word_of(file, 0x18)
}

/// The bytes of the header.
pub(crate) fn header_length(file: &[u8]) -> u32
    requires { header_bytes ≤ length file.now }
    ensures length { result ≡ header_length file.now }
    ensures most { result ≤ 0xF_FFF0 }
{
    PARAGRAPH_SIZE * word_of(file, 0x08) as u32
}

/// The bytes of header and image.
pub(crate) fn declared_length(file: &[u8]) -> u32
    requires { header_bytes ≤ length file.now }
    ensures length { result ≡ declared_length file.now }
    ensures most { result ≤ 0x201_FFFF }
{
    let last = last_page(file);
    let pages = pages(file);
    if last == 0 || last == PAGE_BYTES {
        PAGE_BYTES as u32 * pages as u32
    } else {
        PAGE_BYTES as u32 * pages.saturating_sub(1) as u32 + last as u32
    }
}

/// The bytes of the image.
pub(crate) fn image_length(file: &[u8]) -> u32
    requires { header_bytes ≤ length file.now }
    ensures length { result ≡ image_length file.now }
    ensures most { result ≤ 0x201_FFFF }
{
    declared_length(file).saturating_sub(header_length(file))
}

// The paragraphs of the image.
fn image_paras(file: &[u8]) -> u32
    requires { header_bytes ≤ length file.now }
    ensures paras { result ≡ image_paras file.now }
    ensures most { result ≤ 0x20_2000 }
{
    (image_length(file) + 15) / PARAGRAPH_SIZE
}

/// The paragraphs that the program needs.
pub(crate) fn needed_paras(file: &[u8]) -> u32
    requires { header_bytes ≤ length file.now }
    ensures { result ≡ needed_paras file.now }
{
    PSP_PARAS + image_paras(file) + minimum(file) as u32
}

/// The paragraphs of its block.
pub(crate) fn block_paras(file: &[u8]) -> u32
    requires { header_bytes ≤ length file.now }
    ensures paras { result ≡ block_paras file.now }
    ensures most { result ≤ most_paras }
    ensures least { psp_paras ≤ result }
{
    let low = minimum(file);
    let high = maximum(file);
    if low == 0 && high == 0 {
        MOST_PARAS
    } else {
        (PSP_PARAS + image_paras(file) + low.max(high) as u32).min(MOST_PARAS)
    }
}
