// Fetching code, byte by byte or from a window.
ghost use Rattle.std.specs.Prelude.{◌≡◌, ◌≤◌, ◌<◌, ◌+◌, ◌^◌, IfSome, length};
ghost use Rattle.client_world.specs.{CodeWords.{code_bytes}, declared.host_frames.TheConstants.{PAGE_SIZE}};
ghost use Rattle.guest_ram.specs.Bytes.{region};
ghost use Rattle.guest_space.specs.{Code.{code_byte, code_from, code_room}, Windows.{IsWindow}};

use crate::machine::Machine;
use crate::memory::is_in_page;
use crate::windows::CodeWindow;
use arrayvec::ArrayVec;
use client_world::host_frames::PAGE_SIZE;
use client_world::{CodeWords, Fault, SegReg};
use guest_ram::Ram;

// The bytes after the first of the longest instruction.
const MORE_CODE: u32 = MAX_CODE as u32 - 1;

/// The most bytes of an instruction. Source: 80386 Programmer's Reference Manual, ch. 9, "Exception 13".
pub const MAX_CODE: usize = 15;

// The 15 bytes from an address on.
#[inline(always)]
pub(crate) fn words_of(ram: &Ram, at: u32) -> CodeWords
    requires { at + code_room ≤ length ram.now }
    ensures { region ram.now at code_room ≡ code_bytes result }
{
    // An address is below the number of bytes, which is a u32.
    let _size = ram.len();
    ram.bytes_fit();
    CodeWords {
        low: u64::from_le_bytes(ram.get(at)),
        high: u64::from_le_bytes(ram.get(at + 7)),
    }
}

impl Machine {
    /// The code byte at CS:EIP + `at`, or the fault of its fetch. The offset doesn't wrap. Source: 80386 Programmer's Reference Manual, ch.
    /// 5 and 6.
    pub fn fetch(&self, at: u8) -> Result<u8, Fault>
        ensures { result ≡ code_byte self.now.world at }
    {
        // The bytes before it are inside the segment where it is: code doesn't expand down.
        let base = self.segment_base(SegReg::Cs, self.regs.eip, u32::from(at) + 1, false)?;
        let lin = base.wrapping_add(self.regs.eip).wrapping_add(u32::from(at));
        let [byte] = self.load::<1>(lin)?;
        Ok(byte)
    }

    /// The code bytes from CS:EIP on, up to 15 or to the first that can't be fetched: what `fetch` gives one by one. Source: own.
    pub fn code(&self) -> ArrayVec<u8, 15>
        ensures { result.items ≡ code_from self.now.world 0 code_room }
    {
        if let Ok(bytes) = self.read::<MAX_CODE>(SegReg::Cs, self.regs.eip) {
            return ArrayVec::from(bytes);
        }

        let mut code = ArrayVec::new();
        for at in 0..MAX_CODE as u8 {
            match self.fetch(at) {
                Ok(byte) => code.push(byte),
                Err(_) => return code,
            }
        }
        code
    }
}

impl Machine {
    // The window of that many bytes from an offset of CS on, where a quick look shows it; `None` says nothing.
    #[inline(always)]
    fn window_from(&self, first: u32, size: u32) -> Option<CodeWindow>
        requires page { size ≤ PAGE_SIZE }
        requires low { first + size ≤ 2 ^ 32 }
        ensures { IfSome result (λ w. 0 < w.starts → IsWindow self.now w) }
    {
        let base = self.quick_base(SegReg::Cs, first, size, false)?;
        let linear = base.wrapping_add(first);
        if !is_in_page(linear, size) {
            return None;
        }
        let address = self.noted_address(linear, false)?;
        let page = if self.is_big(SegReg::Cs) {
            PAGE_SIZE
        } else {
            0
        };
        Some(CodeWindow {
            cs: self.registers().cs,
            first,
            linear,
            address,
            starts: size.saturating_sub(MORE_CODE),
            place: page + linear % PAGE_SIZE,
        })
    }

    // The code from the beginning of the page of CS:EIP, or of the segment, up to the end of either, where a quick look shows it.
    #[inline(always)]
    fn window_here(&self) -> Option<CodeWindow>
        ensures { IfSome result (λ w. 0 < w.starts → IsWindow self.now w) }
    {
        let eip = self.registers().eip;
        let part = (*self.part(SegReg::Cs))?;
        let first = eip.saturating_sub(part.base.wrapping_add(eip) % PAGE_SIZE);
        let page = PAGE_SIZE - part.base.wrapping_add(first) % PAGE_SIZE;
        let more = part.limit.checked_sub(first)?;
        self.window_from(first, if more < page { more + 1 } else { page })
    }

    /// The code in the page of CS:EIP, where a quick look shows it, else a window that has no start. Source: own.
    #[inline(never)]
    pub fn code_window(&self) -> CodeWindow
        ensures { 0 < result.starts → IsWindow self.now result }
    {
        if let Some(window) = self.window_here() {
            return window;
        }
        CodeWindow::NONE
    }

    /// The code bytes at CS:EIP, which is that start of a window. Source: own.
    #[inline(always)]
    pub fn words_in(&self, window: &CodeWindow, from: u32) -> CodeWords
        requires window { IsWindow self.now window.now }
        requires start { from < window.now.starts }
        requires here { window.now.first + from ≡ self.now.world.regs.eip }
        ensures { code_from self.now.world 0 code_room ≡ code_bytes result }
    {
        self.holds_world();
        words_of(&self.ram, window.address + from)
    }
}
