// The bytes and the low half of a general register.
ghost use Rattle.std.specs.Prelude.{◌≡◌};
ghost use Rattle.client_world.specs.Registers.{with_low_half};
ghost use Rattle.cpu_values.specs.Register.{register_byte, with_byte};

/// The low byte of a register (AL of EAX), or with `high` the byte above it (AH).
/// Source: 80386 Programmer's Reference Manual, ch. 2, "General Registers".
pub fn part8(r: u32, high: bool) -> u8
    ensures { result ≡ register_byte r high }
{
    if high {
        (r >> 8 & 0xFF) as u8
    } else {
        (r & 0xFF) as u8
    }
}

/// The register with another low byte, or with `high` another byte above it; its other bytes stay.
/// Source: 80386 Programmer's Reference Manual, ch. 2, "General Registers".
pub fn put8(r: u32, high: bool, v: u8) -> u32
    ensures { result ≡ with_byte r high v }
{
    if high {
        (r >> 16 << 16) + (u32::from(v) << 8) + (r & 0xFF)
    } else {
        (r >> 8 << 8) + u32::from(v)
    }
}

/// The register with another low half (AX of EAX); its high half stays.
/// Source: 80386 Programmer's Reference Manual, ch. 2, "General Registers".
pub fn put16(r: u32, v: u16) -> u32
    ensures { result ≡ with_low_half r v }
{
    (r >> 16 << 16) + u32::from(v)
}
