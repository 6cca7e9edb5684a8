// The mode, the flags and the registers of the processor.
ghost use Rattle.std.specs.Prelude.{◌≡◌, ◌≤◌, ◌<◌, ◌/◌, Bool, cond};
ghost use Rattle.client_world.specs.{General.{general, with_general}, Registers.{flags_image, flags_of_image, has_bit, high_byte}};
ghost use Rattle.client_world.specs.{Registers.{low_byte, low_half, with_low_byte, with_low_half}, Segments.{selector, with_selector}};

use crate::general::{EAX, EBP, EBX, ECX, EDX, ESI, ESP};
use crate::segments::SegReg;

/// The processor's mode; `Real` is virtual-8086 mode.
#[derive(Clone, Copy, Debug, PartialEq, Eq)]
pub enum Mode {
    Real,
    Protected,
}

/// The width of a client: 16 bits or 32, chosen at its entry to protected mode. It decides which registers services take, and the items
/// of the host's frames. Source: DPMI 0.9, "Mode Switching".
#[derive(Clone, Copy, Debug, PartialEq, Eq)]
pub enum Width {
    Sixteen,
    ThirtyTwo,
}

// The bits of the flags image. Source: 80386 Programmer's Reference Manual, ch. 2, EFLAGS.

/// The bit that is always set.
pub const FIXED_BIT: u32 = 0x0002;

/// The bit of the carry flag, CF.
pub const CARRY_BIT: u32 = 0x0001;

/// The bit of the parity flag, PF.
pub const PARITY_BIT: u32 = 0x0004;

/// The bit of the adjust flag, AF.
pub const ADJUST_BIT: u32 = 0x0010;

/// The bit of the zero flag, ZF.
pub const ZERO_BIT: u32 = 0x0040;

/// The bit of the sign flag, SF.
pub const SIGN_BIT: u32 = 0x0080;

/// The bit of the interrupt flag, IF.
pub const INTERRUPT_BIT: u32 = 0x0200;

/// The bit of the direction flag, DF.
pub const DIRECTION_BIT: u32 = 0x0400;

/// The bit of the overflow flag, OF.
pub const OVERFLOW_BIT: u32 = 0x0800;

/// The flags that instructions see. The virtual interrupt flag is kept apart; TF and NT always read 0.
#[derive(Clone, Copy, Debug, PartialEq, Eq)]
pub struct Flags {
    pub cf: bool,
    pub pf: bool,
    pub af: bool,
    pub zf: bool,
    pub sf: bool,
    pub df: bool,
    pub of: bool,
}

impl Flags {
    /// All flags clear.
    pub const CLEAR: Flags = Flags {
        cf: false,
        pf: false,
        af: false,
        zf: false,
        sf: false,
        df: false,
        of: false,
    };

    /// The 16-bit image of the flags, with the given interrupt flag.
    /// Source: 80386 Programmer's Reference Manual, ch. 2, EFLAGS.
    pub fn image(self, interrupt: bool) -> u16
        ensures { result ≡ flags_image self interrupt }
    {
        let image = FIXED_BIT
            + weight(self.cf, CARRY_BIT)
            + weight(self.pf, PARITY_BIT)
            + weight(self.af, ADJUST_BIT)
            + weight(self.zf, ZERO_BIT)
            + weight(self.sf, SIGN_BIT)
            + weight(interrupt, INTERRUPT_BIT)
            + weight(self.df, DIRECTION_BIT)
            + weight(self.of, OVERFLOW_BIT);
        image as u16
    }

    /// The flags of a 16-bit image; its interrupt flag is asked for with `is_interrupt_set`. Source: 80386 Programmer's Reference Manual,
    /// ch. 2, EFLAGS.
    pub fn from_image(image: u16) -> Flags
        ensures { result ≡ flags_of_image image }
    {
        let image = u32::from(image);
        Flags {
            cf: is_set(image, CARRY_BIT),
            pf: is_set(image, PARITY_BIT),
            af: is_set(image, ADJUST_BIT),
            zf: is_set(image, ZERO_BIT),
            sf: is_set(image, SIGN_BIT),
            df: is_set(image, DIRECTION_BIT),
            of: is_set(image, OVERFLOW_BIT),
        }
    }
}

/// Whether the interrupt flag of a 16-bit flags image is set. Source: 80386 Programmer's Reference Manual, ch. 2, EFLAGS.
pub fn is_interrupt_set(image: u16) -> bool
    ensures { result ≡ has_bit image INTERRUPT_BIT }
{
    is_set(u32::from(image), INTERRUPT_BIT)
}

/// A bit's value where the flag is set, else 0. Source: own.
#[inline(always)]
pub fn weight(flag: bool, bit: u32) -> u32
    ensures value { result ≡ cond flag bit 0 }
    ensures most { result ≤ bit }
{
    if flag { bit } else { 0 }
}

/// Whether the bit of that value is set in a number. Source: own.
#[inline(always)]
pub fn is_set(number: u32, bit: u32) -> bool
    requires { 0 < bit }
    ensures { result ≡ has_bit number bit }
{
    number / bit % 2 == 1
}

/// The registers of the processor. In real mode the segment registers hold real segments.
#[derive(Clone, Copy, Debug, PartialEq, Eq)]
pub struct Regs {
    pub eax: u32,
    pub ecx: u32,
    pub edx: u32,
    pub ebx: u32,
    pub esp: u32,
    pub ebp: u32,
    pub esi: u32,
    pub edi: u32,
    pub eip: u32,
    pub flags: Flags,
    pub es: u16,
    pub cs: u16,
    pub ss: u16,
    pub ds: u16,
    pub fs: u16,
    pub gs: u16,
}

impl Regs {
    /// All registers 0 and all flags clear.
    pub const ZERO: Regs = Regs {
        eax: 0,
        ecx: 0,
        edx: 0,
        ebx: 0,
        esp: 0,
        ebp: 0,
        esi: 0,
        edi: 0,
        eip: 0,
        flags: Flags::CLEAR,
        es: 0,
        cs: 0,
        ss: 0,
        ds: 0,
        fs: 0,
        gs: 0,
    };

    /// What the general register of a number 0 to 7 holds. Source: 80386 Programmer's Reference Manual, ch. 17, "reg"; that greater numbers
    /// are EDI is own.
    #[inline(always)]
    #[tactic(auto, unfolding(crate::specs::General::general))]
    pub fn general(&self, n: u8) -> u32
        ensures { result ≡ general self.now n }
    {
        match n {
            EAX => self.eax,
            ECX => self.ecx,
            EDX => self.edx,
            EBX => self.ebx,
            ESP => self.esp,
            EBP => self.ebp,
            ESI => self.esi,
            _ => self.edi,
        }
    }

    /// Puts a doubleword into the general register of a number 0 to 7. Source: 80386 Programmer's Reference Manual, ch. 17, "reg"; that
    /// greater numbers are EDI is own.
    #[inline(always)]
    #[tactic(auto, unfolding(crate::specs::General::with_general))]
    pub fn set_general(&mut self, n: u8, v: u32)
        ensures { self.new ≡ with_general self.old n v }
    {
        match n {
            EAX => self.eax = v,
            ECX => self.ecx = v,
            EDX => self.edx = v,
            EBX => self.ebx = v,
            ESP => self.esp = v,
            EBP => self.ebp = v,
            ESI => self.esi = v,
            _ => self.edi = v,
        }
    }

    /// AX, the low half of EAX. Source: 80386 Programmer's Reference Manual, ch. 2, "General Registers".
    #[inline(always)]
    pub fn ax(&self) -> u16
        ensures { result ≡ low_half self.now.eax }
    {
        low_half(self.eax)
    }

    /// What a segment register holds: a selector, or in real mode a segment. Source: 80386 Programmer's Reference Manual, ch. 2, "Segment
    /// Registers".
    #[inline(always)]
    pub fn selector(&self, seg: SegReg) -> u16
        ensures { result ≡ selector self.now seg }
    {
        match seg {
            SegReg::Es => self.es,
            SegReg::Cs => self.cs,
            SegReg::Ss => self.ss,
            SegReg::Ds => self.ds,
            SegReg::Fs => self.fs,
            SegReg::Gs => self.gs,
        }
    }

    /// Puts a selector, or in real mode a segment, into a segment register. Source: 80386 Programmer's Reference Manual, ch. 2, "Segment
    /// Registers".
    pub fn set_selector(&mut self, seg: SegReg, sel: u16)
        ensures { self.new ≡ with_selector self.old seg sel }
    {
        match seg {
            SegReg::Es => self.es = sel,
            SegReg::Cs => self.cs = sel,
            SegReg::Ss => self.ss = sel,
            SegReg::Ds => self.ds = sel,
            SegReg::Fs => self.fs = sel,
            SegReg::Gs => self.gs = sel,
        }
    }
}

/// The low byte of a doubleword, as AL of EAX. Source: 80386 Programmer's Reference Manual, ch. 2, "General Registers".
#[inline(always)]
pub fn low_byte(x: u32) -> u8
    ensures { result ≡ low_byte x }
{
    (x % 0x100) as u8
}

/// The second byte of a doubleword, as AH of EAX. Source: 80386 Programmer's Reference Manual, ch. 2, "General Registers".
#[inline(always)]
pub fn high_byte(x: u32) -> u8
    ensures { result ≡ high_byte x }
{
    (x / 0x100 % 0x100) as u8
}

/// The low half of a doubleword, as AX of EAX. Source: 80386 Programmer's Reference Manual, ch. 2, "General Registers".
#[inline(always)]
pub fn low_half(x: u32) -> u16
    ensures { result ≡ low_half x }
{
    (x % 0x1_0000) as u16
}

/// The high half of a doubleword. Source: own.
#[inline(always)]
pub fn high_half(x: u32) -> u16
    ensures { result ≡ x / 0x10000 }
{
    (x / 0x1_0000) as u16
}

/// A doubleword with another low byte: its other three stay, as at a write of AL. Source: 80386 Programmer's Reference Manual, ch. 2,
/// "General Registers".
#[inline(always)]
pub fn with_low_byte(x: u32, v: u8) -> u32
    ensures { result ≡ with_low_byte x v }
{
    x / 0x100 * 0x100 + u32::from(v)
}

/// A doubleword with another low half: the high half stays, as at a write of AX. Source: 80386 Programmer's Reference Manual, ch. 2,
/// "General Registers".
#[inline(always)]
pub fn with_low_half(x: u32, v: u16) -> u32
    ensures { result ≡ with_low_half x v }
{
    x / 0x1_0000 * 0x1_0000 + u32::from(v)
}

/// The flags image gives back the flags and the interrupt flag that it was made of.
pub fn a_flags_image_gives_its_flags_back()
    ensures flags { (f : Flags) (interrupt : Bool) → flags_of_image (flags_image f interrupt) ≡ f }
    ensures interrupt { (f : Flags) (interrupt : Bool) →
        has_bit (flags_image f interrupt) INTERRUPT_BIT ≡ interrupt }
{}
