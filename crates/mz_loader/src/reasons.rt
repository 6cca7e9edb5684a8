// Why a file isn't loaded.
ghost use Rattle.std.specs.Prelude.{◌≡◌, ◌+◌, ◌-◌, ◌*◌, ◌≤◌, length, false, IfNone};
ghost use Rattle.client_world.specs.declared.memory_map.TheConstants.{PARAGRAPH_SIZE};
ghost use Rattle.mz_loader.specs.{Header.{block_paras, psp_paras}, declared.header.TheConstants.{MOST_BYTES}, Refusal.{header_bytes}};
ghost use Rattle.mz_loader.specs.Refusal.{is_short, lacks_signature, has_bad_pages, has_bad_table, has_no_room, relocation_target};
ghost use Rattle.mz_loader.specs.Refusal.{some_beyond, has_bad_target, first_segment, entry_address, has_bad_entry, refusal};

use crate::header::{
    HEADER_BYTES, MOST_PARAS, PAGE_BYTES, PSP_PARAS, block_paras, declared_length, header_length,
    last_page, needed_paras, pages, relocation_table, relocations, word_of,
};
use client_world::LoadFault;
use client_world::memory_map::{IMAGE_SEGMENT, PARAGRAPH_SIZE, PSP_SEGMENT};

// Whether the file is shorter than a header.
fn is_short(file: &[u8]) -> bool
    ensures { result ≡ is_short file.now }
{
    file.len() < HEADER_BYTES
}

// Whether it doesn't begin with `MZ`.
fn lacks_signature(file: &[u8]) -> bool
    requires { header_bytes ≤ length file.now }
    ensures { result ≡ lacks_signature file.now }
{
    !(file[0] == b'M' && file[1] == b'Z')
}

// Whether the last page has more bytes than a page, or there are no pages, or the header is longer than they are.
fn has_bad_pages(file: &[u8]) -> bool
    requires { header_bytes ≤ length file.now }
    ensures { result ≡ has_bad_pages file.now }
{
    last_page(file) > PAGE_BYTES
        || (pages(file) == 0 || declared_length(file) < header_length(file))
}

// Whether the relocation table passes the file's end.
fn has_bad_table(file: &[u8]) -> bool
    requires { header_bytes ≤ length file.now }
    ensures { result ≡ has_bad_table file.now }
{
    let count = relocations(file) as usize;
    count != 0 && file.len() < relocation_table(file) as usize + 4 * count
}

// Whether the program needs more than there is.
fn has_no_room(file: &[u8]) -> bool
    requires { header_bytes ≤ length file.now }
    ensures { result ≡ has_no_room file.now }
{
    MOST_PARAS < needed_paras(file)
}

/// The place in the image which the relocation at an address of the file names.
pub(crate) fn relocation_target(file: &[u8], at: usize) -> u32
    requires { at + 4 ≤ length file.now }
    ensures target { result ≡ relocation_target file.now at }
    ensures most { result ≤ 0x10_FFEF }
{
    PARAGRAPH_SIZE * word_of(file, at + 2) as u32 + word_of(file, at) as u32
}

// Whether one of n relocations from an address on names a word beyond a limit.
fn some_beyond(file: &[u8], limit: u32, at: u16, n: u16) -> bool
    requires { at + 4 * n ≤ length file.now }
    ensures { result ≡ some_beyond file.now limit at n }
{
    for i in 0..n {
        if limit < relocation_target(file, at as usize + 4 * i as usize) + 2 {
            return true;
        }
    }
    false
}

/// The bytes of the program block after its prefix.
pub(crate) fn image_room(file: &[u8]) -> u32
    requires { header_bytes ≤ length file.now }
    ensures room { result ≡ PARAGRAPH_SIZE * (block_paras file.now - psp_paras) }
    ensures most { result ≤ MOST_BYTES }
{
    PARAGRAPH_SIZE * (block_paras(file) - PSP_PARAS)
}

// Whether a relocation lies outside the program block.
#[tactic(auto, using(crate::proofs::Relocating::none_beyond))]
fn has_bad_target(file: &[u8]) -> bool
    requires long { header_bytes ≤ length file.now }
    requires table { has_bad_table file.now ≡ false }
    ensures { result ≡ has_bad_target file.now }
{
    let count = relocations(file);
    count != 0 && some_beyond(file, image_room(file), relocation_table(file), count)
}

/// CS at the first instruction.
pub(crate) fn first_segment(file: &[u8]) -> u16
    requires { header_bytes ≤ length file.now }
    ensures { result ≡ first_segment file.now }
{
    IMAGE_SEGMENT.wrapping_add(word_of(file, 0x16))
}

// The linear address of the first instruction.
fn entry_address(file: &[u8]) -> u32
    requires { header_bytes ≤ length file.now }
    ensures { result ≡ entry_address file.now }
{
    PARAGRAPH_SIZE * first_segment(file) as u32 + word_of(file, 0x14) as u32
}

// Whether it lies outside the program block.
fn has_bad_entry(file: &[u8]) -> bool
    requires { header_bytes ≤ length file.now }
    ensures { result ≡ has_bad_entry file.now }
{
    let entry = entry_address(file);
    entry < PARAGRAPH_SIZE * PSP_SEGMENT as u32
        || PARAGRAPH_SIZE * (PSP_SEGMENT as u32 + block_paras(file)) <= entry
}

/// The first reason for which a file isn't loaded.
#[tactic(auto, unfolding(crate::specs::Refusal::refusal))]
pub(crate) fn refusal(file: &[u8]) -> Option<LoadFault>
    ensures reason { result ≡ refusal file.now }
    ensures long { IfNone result (header_bytes ≤ length file.now) }
    ensures table { IfNone result (has_bad_table file.now ≡ false) }
    ensures room { IfNone result (has_no_room file.now ≡ false) }
    ensures targets { IfNone result (has_bad_target file.now ≡ false) }
{
    if is_short(file) {
        return Some(LoadFault::ShortHeader);
    }
    if lacks_signature(file) {
        return Some(LoadFault::Signature);
    }
    if has_bad_pages(file) {
        return Some(LoadFault::LastPage);
    }
    if has_bad_table(file) {
        return Some(LoadFault::RelocTable);
    }
    if has_no_room(file) {
        return Some(LoadFault::NoRoom);
    }
    if has_bad_target(file) {
        return Some(LoadFault::RelocTarget);
    }
    if has_bad_entry(file) {
        return Some(LoadFault::EntryOutside);
    }
    None
}
