// The protected-mode vectors, the real-mode callbacks, and which pages of the DOS megabyte's view are pageable.
ghost use Rattle.std.specs.Prelude.{◌≡◌, ◌≢◌, ◌≤◌, ◌<◌, ◌+◌, ◌*◌, ◌++◌, None, cond, length, slice_set};
ghost use Rattle.client_world.specs.declared.host_frames.TheConstants.{PAGE_SIZE, BUDGET_FRAMES, CALLBACK_SIZE, VECTORS, VECTOR_FRAMES};
ghost use Rattle.client_world.specs.declared.limits.TheConstants.{CALLBACKS, EXCEPTION_VECTORS};
ghost use Rattle.client_world.specs.{declared.memory_map.TheConstants.{DOS_VIEW_PAGES}, declared.place.Place.{Place}};
ghost use Rattle.guest_ram.specs.Bytes.{dword_bytes, put};
ghost use Rattle.guest_space.specs.VectorLists.{callback_of_slot, is_pageable, vector_at};
ghost use Rattle.host_memory.specs.{Layout.{address_of}, Vectors.{callback_at, callback_bytes, pointer_at, pointer_bytes, word_bytes}};

use crate::machine::Machine;
use client_world::FarPtr;
use client_world::host_frames::{
    CALLBACK_SIZE, CALLBACKS_START, EXCEPTIONS_START, PAGE_SIZE, PAGEABLE_START, VECTOR_SIZE,
    VECTORS,
};
use guest_ram::Ram;

// Where a callback has the far pointer to its structure.
const STRUCTURE: u32 = 6;

// Where it has whether it is held.
const HELD: u32 = 12;

// The far pointer at a place of the frame of the vectors: an offset, and then a selector.
fn pointer(ram: &Ram, at: u32) -> FarPtr
    requires size { PAGE_SIZE * BUDGET_FRAMES ≤ length ram.now }
    requires room { at + 6 ≤ PAGE_SIZE * VECTOR_FRAMES }
    ensures { result ≡ pointer_at ram.now (PAGE_SIZE * VECTORS + at) }
{
    let address = PAGE_SIZE * VECTORS + at;
    FarPtr {
        off: ram.get32(address),
        sel: ram.get16(address + 4),
    }
}

// Writes a far pointer at a place of that frame.
fn set_pointer(ram: &mut Ram, at: u32, p: FarPtr)
    requires size { PAGE_SIZE * BUDGET_FRAMES ≤ length ram.old }
    requires room { at + 6 ≤ PAGE_SIZE * VECTOR_FRAMES }
    ensures { ram.new ≡ put (put ram.old (PAGE_SIZE * VECTORS + at) (dword_bytes p.off)) (PAGE_SIZE * VECTORS + at + 4) (word_bytes p.sel) }
{
    let address = PAGE_SIZE * VECTORS + at;
    ram.set32(address, p.off);
    ram.set16(address + 4, p.sel);
}

// The callback at a place of that frame; none where the slot is free.
fn callback(ram: &Ram, at: u32) -> Option<(FarPtr, FarPtr)>
    requires size { PAGE_SIZE * BUDGET_FRAMES ≤ length ram.now }
    requires room { at + CALLBACK_SIZE ≤ PAGE_SIZE * VECTOR_FRAMES }
    ensures { result ≡ callback_at ram.now (PAGE_SIZE * VECTORS + at) }
{
    if ram.get8(PAGE_SIZE * VECTORS + at + HELD) == 0 {
        None
    } else {
        Some((pointer(ram, at), pointer(ram, at + STRUCTURE)))
    }
}

// Writes two far pointers, and after them a doubleword.
fn set_slot(ram: &mut Ram, at: u32, procedure: FarPtr, structure: FarPtr, held: u32)
    requires size { PAGE_SIZE * BUDGET_FRAMES ≤ length ram.old }
    requires room { at + CALLBACK_SIZE ≤ PAGE_SIZE * VECTOR_FRAMES }
    ensures { ram.new ≡ put ram.old (PAGE_SIZE * VECTORS + at) (pointer_bytes procedure ++ pointer_bytes structure ++ dword_bytes held) }
{
    set_pointer(ram, at, procedure);
    set_pointer(ram, at + STRUCTURE, structure);
    ram.set32(PAGE_SIZE * VECTORS + at + HELD, held);
}

// Writes a callback at a place of that frame, or zeros for a free slot.
fn set_callback(ram: &mut Ram, at: u32, row: Option<(FarPtr, FarPtr)>)
    requires size { PAGE_SIZE * BUDGET_FRAMES ≤ length ram.old }
    requires room { at + CALLBACK_SIZE ≤ PAGE_SIZE * VECTOR_FRAMES }
    ensures { ram.new ≡ put ram.old (PAGE_SIZE * VECTORS + at) (callback_bytes row) }
{
    match row {
        Some((procedure, structure)) => set_slot(ram, at, procedure, structure, 1),
        None => set_slot(ram, at, FarPtr::NULL, FarPtr::NULL, 0),
    }
}

// The byte of a page: 1 where it is pageable, else 0.
fn bit(on: bool) -> u8
    ensures { result ≡ cond on 1 0 }
{
    if on { 1 } else { 0 }
}

impl Machine {
    /// The protected-mode interrupt vector of a number.
    pub fn pvec(&self, n: u8) -> FarPtr
        ensures { result ≡ vector_at self.now.world.interrupt_vectors n }
    {
        pointer(&self.ram, VECTOR_SIZE * n as u32)
    }

    /// Sets the protected-mode interrupt vector of a number. Source: own.
    pub fn set_pvec(&mut self, n: u8, p: FarPtr)
        ensures world { self.new.world ≡ record self.old.world {
          interrupt_vectors = slice_set self.old.world.interrupt_vectors n p;
        } }
        ensures addresses { (place : Place) → address_of self.new.bytes place ≡ address_of self.old.bytes place }
    {
        set_pointer(&mut self.ram, VECTOR_SIZE * n as u32, p);
    }

    /// The exception vector of a number below 32.
    pub fn evec(&self, n: u8) -> FarPtr
        requires { n < EXCEPTION_VECTORS }
        ensures { result ≡ vector_at self.now.world.exception_vectors n }
    {
        pointer(&self.ram, EXCEPTIONS_START + VECTOR_SIZE * n as u32)
    }

    /// Sets the exception vector of a number below 32. Source: own.
    pub fn set_evec(&mut self, n: u8, p: FarPtr)
        requires { n < EXCEPTION_VECTORS }
        ensures world { self.new.world ≡ record self.old.world {
          exception_vectors = slice_set self.old.world.exception_vectors n p;
        } }
        ensures addresses { (place : Place) → address_of self.new.bytes place ≡ address_of self.old.bytes place }
    {
        set_pointer(&mut self.ram, EXCEPTIONS_START + VECTOR_SIZE * n as u32, p);
    }

    /// The callback of a slot below 16: its procedure and its call structure; `None` where the slot is free. Source: own.
    pub fn back(&self, slot: u8) -> Option<(FarPtr, FarPtr)>
        requires { slot < CALLBACKS }
        ensures { result ≡ callback_of_slot self.now.world.callbacks slot }
    {
        callback(&self.ram, CALLBACKS_START + CALLBACK_SIZE * slot as u32)
    }

    /// Sets the callback of a slot below 16, or frees the slot. Source: own.
    pub fn set_back(&mut self, slot: u8, row: Option<(FarPtr, FarPtr)>)
        requires slot { slot < CALLBACKS }
        requires width { self.old.world.width ≢ None }
        ensures world { self.new.world ≡ record self.old.world { callbacks = slice_set self.old.world.callbacks slot row } }
        ensures addresses { (place : Place) → address_of self.new.bytes place ≡ address_of self.old.bytes place }
    {
        let at = CALLBACKS_START + CALLBACK_SIZE * slot as u32;
        set_callback(&mut self.ram, at, row);
    }

    /// Whether a page of the DOS megabyte's view is pageable.
    pub fn pageable(&self, page: u16) -> bool
        requires { page < DOS_VIEW_PAGES }
        ensures { result ≡ is_pageable self.now.world.pageable page }
    {
        self.ram
            .get8(PAGE_SIZE * VECTORS + PAGEABLE_START + page as u32)
            == 1
    }

    /// Makes a page of the DOS megabyte's view pageable, or no longer pageable. Source: own.
    pub fn set_pageable(&mut self, page: u16, on: bool)
        requires { page < DOS_VIEW_PAGES }
        ensures world { self.new.world ≡ record self.old.world { pageable = slice_set self.old.world.pageable page on } }
        ensures addresses { (place : Place) → address_of self.new.bytes place ≡ address_of self.old.bytes place }
    {
        let at = PAGE_SIZE * VECTORS + PAGEABLE_START + page as u32;
        self.ram.set8(at, bit(on));
    }
}
