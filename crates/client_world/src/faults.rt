// Exceptions, and what a walk of the page tables refuses.
ghost use Rattle.std.specs.Prelude.{◌≡◌};

// The numbers of exceptions. Source: 80386 Programmer's Reference Manual, ch. 9, table 9-1.

/// The divide error: a divisor that is 0, or a quotient that doesn't fit.
pub const DIVIDE_ERROR: u8 = 0x00;

/// The debug exception: here the hit of a watchpoint.
pub const DEBUG: u8 = 0x01;

/// The bounds check: an index that BOUND finds outside of its bounds.
pub const BOUNDS_CHECK: u8 = 0x05;

/// The invalid opcode: bytes that are no instruction, at least not with this operand or in this mode.
pub const INVALID_OPCODE: u8 = 0x06;

/// An instruction of the coprocessor, where there is none.
pub const COPROCESSOR_NOT_AVAILABLE: u8 = 0x07;

/// The use of a segment that isn't present, but for the stack's.
pub const SEGMENT_NOT_PRESENT: u8 = 0x0B;

/// The stack exception: the use of a stack's segment that isn't present, or an access outside of it.
pub const STACK_EXCEPTION: u8 = 0x0C;

/// The general protection exception: each breach of a rule of protection that has no other number.
pub const GENERAL_PROTECTION: u8 = 0x0D;

/// The page fault: an access whose walk of the page tables ends nowhere.
pub const PAGE_FAULT: u8 = 0x0E;

// The bits of a page fault's error code. Source: 80386 Programmer's Reference Manual, ch. 9, figure 9-8.

/// The bit of an access to a page that is present.
pub const PROTECTION_CODE: u32 = 1;

/// The bit of a write.
pub const WRITE_CODE: u32 = 2;

/// The bit of an access with user rights.
pub const USER_CODE: u32 = 4;

/// An exception: its number and its error code, 0 where it has none.
/// Source: 80386 Programmer's Reference Manual, ch. 9, "Exceptions and Interrupts".
#[derive(Clone, Copy, Debug, PartialEq, Eq)]
pub struct Fault {
    pub number: u8,
    pub code: u32,
}

/// A walk of the page tables that ends nowhere: whether both entries were present, so that it is a protection fault.
/// Source: 80386 Programmer's Reference Manual, ch. 9, "Exception 14: Page Fault".
#[derive(Clone, Copy, Debug, PartialEq, Eq)]
pub struct PageFault {
    pub present: bool,
}

/// What a client instruction raises instead of an effect: an exception, or a software interrupt, of which the number and the length of its
/// instruction in bytes are told. Source: 80386 Programmer's Reference Manual, ch. 9, "Exceptions and Interrupts".
#[derive(Clone, Copy, Debug, PartialEq, Eq)]
pub enum Event {
    Fault(Fault),
    Soft { number: u8, len: u8 },
}

impl From<Fault> for Event {
    ghost use Rattle.std.specs.Prelude.{◌≡◌};
    ghost use Rattle.client_world.specs.declared.faults.Event.TheVariants.{Fault as fault};

    ghost from_gives = { λ f e. e ≡ fault f };

    fn from(f: Fault) -> Event {
        Event::Fault(f)
    }
}
