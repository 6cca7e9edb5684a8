// Worked rows. The values come from the manual's rules by hand, and from a processor of the family where it defines them.
use crate::letters::flags;
use client_world::Flags;
use cpu_alu::*;
use cpu_values::{Word, cut};

const CLEAR: Flags = Flags::CLEAR;

fn byte(v: u64) -> Word<8> {
    cut::<8>(v)
}

fn word(v: u64) -> Word<16> {
    cut::<16>(v)
}

fn long(v: u64) -> Word<32> {
    cut::<32>(v)
}

// Whether a result is this value with these flags.
fn is<const W: u8>(found: (Word<W>, Flags), value: u32, letters: &[u8]) -> bool {
    found.0.get() == value && found.1 == flags(letters)
}

// The number of the first row that doesn't hold.
fn first_false(rows: &[bool]) -> Option<usize> {
    rows.iter().position(|holds| !*holds)
}

#[test]
fn worked_rows(rt: HostRuntime) {
    let rows = [
        is(add(byte(0x7F), byte(0x01), CLEAR), 0x80, b"ASO"),
        is(sbb(long(0), long(0), flags(b"C")), 0xFFFF_FFFF, b"CPAS"),
        is(shl(byte(0x81), 1, CLEAR), 0x02, b"CO"),
        is(shl(byte(0x01), 9, flags(b"O")), 0x00, b"ZPO"),
        is(rcl(word(0x8000), 17, CLEAR), 0x8000, b""),
        div(word(0), word(1), word(1)) == None,
        div(word(0), word(1), word(2)) == Some((word(0x8000), word(0))),
        idiv(byte(0x80), byte(0xFF), byte(0xFF)) == None,
        daa(0x009A, CLEAR) == (0x0000, flags(b"CAZP")),
        aam(0x0000, 0, CLEAR) == None,
    ];
    assert_eq!(rt; first_false(&rows), None);
}

#[test]
fn sums_and_differences(rt: HostRuntime) {
    let rows = [
        is(adc(byte(0xFF), byte(0x00), flags(b"CSO")), 0x00, b"CAZP"),
        is(adc(byte(0xFF), byte(0x00), flags(b"AO")), 0xFF, b"SP"),
        is(sub(word(0x8000), word(0x0001), CLEAR), 0x7FFF, b"APO"),
        is(sub(byte(0x7F), byte(0xFF), CLEAR), 0x80, b"CSO"),
        is(inc(byte(0xFF), CLEAR), 0x00, b"AZP"),
        is(dec(word(0x0000), flags(b"C")), 0xFFFF, b"CAPS"),
        is(neg(byte(0x80), CLEAR), 0x80, b"CSO"),
        is(neg(long(0), flags(b"C")), 0, b"ZP"),
    ];
    assert_eq!(rt; first_false(&rows), None);
}

#[test]
fn operations_on_bits(rt: HostRuntime) {
    let rows = [
        is(
            and(word(0x0F0F), word(0x00FF), flags(b"CAO")),
            0x000F,
            b"AP",
        ),
        is(or(word(0x8000), word(0x0001), CLEAR), 0x8001, b"S"),
        is(xor(byte(0x55), byte(0x55), flags(b"CAS")), 0x00, b"AZP"),
        is(not(byte(0x0F), flags(b"COZ")), 0xF0, b"COZ"),
    ];
    assert_eq!(rt; first_false(&rows), None);
}

#[test]
fn shifts(rt: HostRuntime) {
    let rows = [
        is(shr(long(0x8000_0001), 1, CLEAR), 0x4000_0000, b"COP"),
        is(sar(byte(0x81), 1, flags(b"AO")), 0xC0, b"CAPS"),
        is(sar(byte(0x81), 33, flags(b"AO")), 0xC0, b"CAPS"),
        is(sar(byte(0x80), 31, flags(b"O")), 0xFF, b"CPSO"),
        is(sar(word(0x7FFF), 32, flags(b"CZ")), 0x7FFF, b"CZ"),
        is(
            shld(word(0x1234), word(0xABCD), 4, flags(b"AO")),
            0x234A,
            b"CAO",
        ),
        is(shrd(word(0x1238), word(0xABCD), 4, CLEAR), 0xD123, b"CS"),
        is(
            shrd(word(0x1238), word(0xABCD), 16, flags(b"Z")),
            0x1238,
            b"Z",
        ),
    ];
    assert_eq!(rt; first_false(&rows), None);
}

#[test]
fn rotates(rt: HostRuntime) {
    let rows = [
        is(rol(byte(0x81), 8, flags(b"ZO")), 0x81, b"CZO"),
        is(ror(word(0x0001), 1, flags(b"Z")), 0x8000, b"CZO"),
        is(rcl(byte(0x80), 1, flags(b"A")), 0x00, b"CAO"),
        is(rcr(byte(0x01), 1, CLEAR), 0x00, b"C"),
        is(rcr(byte(0x01), 2, CLEAR), 0x80, b""),
        is(rcr(byte(0x01), 9, flags(b"CO")), 0x01, b"CO"),
        is(rcr(long(0x0000_0001), 1, flags(b"C")), 0x8000_0000, b"CO"),
    ];
    assert_eq!(rt; first_false(&rows), None);
}

#[test]
fn products_and_quotients(rt: HostRuntime) {
    let rows = [
        mul(byte(0x10), byte(0x10), flags(b"Z")) == (byte(0x00), byte(0x01), flags(b"CZO")),
        imul(byte(0x80), byte(0xFF), CLEAR) == (byte(0x80), byte(0x00), flags(b"CO")),
        imul(word(0xFFFF), word(0x0001), flags(b"CO")) == (word(0xFFFF), word(0xFFFF), CLEAR),
        idiv(byte(0x80), byte(0xFF), byte(0x01)) == Some((byte(0x80), byte(0x00))),
        idiv(byte(0xF9), byte(0xFF), byte(0x02)) == Some((byte(0xFD), byte(0xFF))),
        idiv(word(0x0007), word(0x0000), word(0xFFFE)) == Some((word(0xFFFD), word(0x0001))),
        idiv(word(0x0007), word(0x0000), word(0x0000)) == None,
        div(byte(0x00), byte(0x00), byte(0x00)) == None,
    ];
    assert_eq!(rt; first_false(&rows), None);
}

#[test]
fn decimal_rows(rt: HostRuntime) {
    let rows = [
        daa(0x12AE, flags(b"O")) == (0x1214, flags(b"CAPO")),
        das(0x12EE, flags(b"CA")) == (0x1288, flags(b"CAPS")),
        das(0x0003, flags(b"A")) == (0x00FD, flags(b"CAS")),
        aaa(0x010B, flags(b"Z")) == (0x0201, flags(b"CAZ")),
        aaa(0xFF39, flags(b"A")) == (0x000F, flags(b"CA")),
        aas(0x02FE, flags(b"AO")) == (0x0108, flags(b"CAO")),
        aas(0x0235, flags(b"C")) == (0x0205, CLEAR),
        aam(0x003F, 10, flags(b"C")) == Some((0x0603, flags(b"CP"))),
        aad(0x0603, 10, flags(b"A")) == (0x003F, flags(b"AP")),
        aad(0xFFFF, 0, CLEAR) == (0x00FF, flags(b"SP")),
    ];
    assert_eq!(rt; first_false(&rows), None);
}

// The two low decimal digits of a number in a byte.
fn packed(n: u16) -> u16 {
    n / 10 % 10 * 0x10 + n % 10
}

// What DAA and DAS are for: the sum and the difference of two numbers of two digits, modulo 100, and its carry.
fn is_decimal(n: u16) -> bool {
    let (a, b) = (n / 100 % 100, n % 100);
    let (x, y) = (byte(u64::from(packed(a))), byte(u64::from(packed(b))));
    let (r, f) = add(x, y, CLEAR);
    let (sum, carry) = daa(r.get() as u16, f);
    let (r, f) = sub(x, y, CLEAR);
    let (difference, borrow) = das(r.get() as u16, f);
    (sum, carry.cf) == (packed(a + b), a + b >= 100)
        && (difference, borrow.cf) == (packed(a + 100 - b), a < b)
}

#[test]
fn packed_sums_and_differences(rt: HostRuntime) {
    assert_eq!(rt; (0..10_000).find(|n| !is_decimal(*n)), None);
}
