// The lines of the report.
ghost use Rattle.std.specs.Prelude.{◌≡◌, ◌≤◌, ◌<◌, ◌+◌, ◌/◌, ◌++◌, ◌^◌, length};
ghost use Rattle.dpmi_report.specs.{Digits.{hex_word, hex_doubleword}, Lines.{exit_part, mode_text, wide_text, narrow_text, regs_text}};
ghost use Rattle.dpmi_report.specs.{Lines.{origin_text, desc_line, digest_line, block_line_with}, Text.{console_head, trace_head}};
ghost use Rattle.dpmi_report.specs.{Text.{end_part, processor_text, descs_head, blocks_head}, Summary.{soak_head, services_text}};
ghost use Rattle.dpmi_report.specs.Summary.{console_digest_text};

use crate::digits::{add_digest, add_hex_byte, add_hex_digit, add_hex_doubleword, add_hex_word};
use crate::exits::add_exit;
use client_world::{Desc, Exit, Mode, Origin, Regs};
use desc_table::{access_byte, flags_byte};
use dpmi_io::{Line, add, add_decimal};

/// The line before the console's bytes. Source: own.
#[tactic(auto, using(dpmi_io::proofs::Decimal::decimal_short))]
pub fn console_line(count: u32) -> Line
    ensures { result.items ≡ console_head count }
{
    let mut line = Line::new();
    add(&mut line, b"console ");
    add_decimal(&mut line, u64::from(count));
    add(&mut line, b"\n");
    line
}

/// The line before the trace. Source: own.
#[tactic(auto, using(dpmi_io::proofs::Decimal::decimal_short))]
pub fn trace_line(kept: u32, lines: u32) -> Line
    ensures { result.items ≡ trace_head kept lines }
{
    let mut line = Line::new();
    add(&mut line, b"trace ");
    add_decimal(&mut line, u64::from(kept));
    add(&mut line, b" of ");
    add_decimal(&mut line, u64::from(lines));
    add(&mut line, b"\n");
    line
}

// Adds the lines of the exit and of the turns.
#[tactic(auto, using(dpmi_io::proofs::Decimal::decimal_short))]
fn add_exit_lines(lines: &mut Line, exit: Exit, steps: u32)
    requires { length lines.old.items ≤ 90 }
    ensures { lines.new.items ≡ lines.old.items ++ exit_part exit steps }
{
    add(lines, b"exit ");
    add_exit(lines, exit);
    add(lines, b"\n");
    add(lines, b"steps ");
    add_decimal(lines, u64::from(steps));
    add(lines, b"\n");
}

/// The lines of the exit and of the turns. Source: own.
pub fn exit_lines(exit: Exit, steps: u32) -> Line
    ensures { result.items ≡ exit_part exit steps }
{
    let mut lines = Line::new();
    add_exit_lines(&mut lines, exit, steps);
    lines
}

/// The lines of the report's head, of the exit and of the turns. Source: own.
pub fn end_lines(exit: Exit, steps: u32) -> Line
    ensures { result.items ≡ end_part exit steps }
{
    let mut lines = Line::new();
    add(&mut lines, b"report");
    add(&mut lines, b"\n");
    add_exit_lines(&mut lines, exit, steps);
    lines
}

// How a mode is written.
fn mode_name(mode: Mode) -> &'static [u8]
    ensures name { result.now ≡ mode_text mode }
    ensures short { length result.now ≤ 9 }
{
    match mode {
        Mode::Real => b"real",
        Mode::Protected => b"protected",
    }
}

// Adds a name and a doubleword.
fn add_wide(line: &mut Line, name: &[u8], value: u32)
    requires { length line.old.items + length name.now + 8 ≤ 256 }
    ensures added { line.new.items ≡ line.old.items ++ (name.now ++ hex_doubleword value) }
    ensures len { length line.new.items ≡ length line.old.items + length name.now + 8 }
{
    add(line, name);
    add_hex_doubleword(line, value);
}

// Adds a name and a word.
fn add_narrow(line: &mut Line, name: &[u8], value: u16)
    requires { length line.old.items + length name.now + 4 ≤ 256 }
    ensures added { line.new.items ≡ line.old.items ++ (name.now ++ hex_word value) }
    ensures len { length line.new.items ≡ length line.old.items + length name.now + 4 }
{
    add(line, name);
    add_hex_word(line, value);
}

// Adds the registers of 32 bits.
fn add_wide_regs(line: &mut Line, r: &Regs)
    requires { length line.old.items ≤ 80 }
    ensures added { line.new.items ≡ line.old.items ++ wide_text r.now }
    ensures short { length line.new.items ≤ length line.old.items + 116 }
{
    add_wide(line, b"eax=", r.eax);
    add_wide(line, b" ebx=", r.ebx);
    add_wide(line, b" ecx=", r.ecx);
    add_wide(line, b" edx=", r.edx);
    add_wide(line, b" esi=", r.esi);
    add_wide(line, b" edi=", r.edi);
    add_wide(line, b" ebp=", r.ebp);
    add_wide(line, b" esp=", r.esp);
    add_wide(line, b" eip=", r.eip);
}

// Adds the flags and the segment registers.
fn add_narrow_regs(line: &mut Line, r: &Regs, vif: bool)
    requires { length line.old.items ≤ 196 }
    ensures added { line.new.items ≡ line.old.items ++ narrow_text r.now vif }
    ensures short { length line.new.items ≤ length line.old.items + 56 }
{
    add_narrow(line, b" fl=", r.flags.image(vif));
    add_narrow(line, b" cs=", r.cs);
    add_narrow(line, b" ss=", r.ss);
    add_narrow(line, b" ds=", r.ds);
    add_narrow(line, b" es=", r.es);
    add_narrow(line, b" fs=", r.fs);
    add_narrow(line, b" gs=", r.gs);
}

/// Adds all registers: 171 bytes at most. Source: own.
pub fn add_regs(line: &mut Line, r: &Regs, vif: bool)
    requires { length line.old.items ≤ 80 }
    ensures added { line.new.items ≡ line.old.items ++ regs_text r.now vif }
    ensures short { length line.new.items ≤ length line.old.items + 172 }
{
    add_wide_regs(line, r);
    add_narrow_regs(line, r, vif);
}

// How an origin is written.
fn origin_name(origin: Origin) -> &'static [u8]
    ensures name { result.now ≡ origin_text origin }
    ensures short { length result.now ≤ 7 }
{
    match origin {
        Origin::Own => b"own",
        Origin::Low => b"low",
        Origin::Entry => b"entry",
        Origin::Psp => b"psp",
        Origin::Segment(_) => b"segment",
        Origin::Dos(_) => b"dos",
        Origin::Host => b"host",
    }
}

/// The line of the descriptor of a selector. Source: own.
pub fn descriptor_line(selector: u16, d: &Desc, origin: Origin) -> Line
    requires { d.now.limit < 2 ^ 20 }
    ensures { result.items ≡ desc_line selector d.now origin }
{
    let mut line = Line::new();
    add_narrow(&mut line, b"desc ", selector);
    add_wide(&mut line, b" base=", d.base);
    add_wide(&mut line, b" limit=", d.byte_limit());
    add(&mut line, b" access=");
    add_hex_byte(&mut line, access_byte(d));
    add(&mut line, b" flags=");
    add_hex_digit(&mut line, flags_byte(d) / 16);
    add(&mut line, b" origin=");
    add(&mut line, origin_name(origin));
    add(&mut line, b"\n");
    line
}

/// The line before the descriptors. Source: own.
#[tactic(auto, using(dpmi_io::proofs::Decimal::decimal_short))]
pub fn descriptors_line(count: u32) -> Line
    ensures { result.items ≡ descs_head count }
{
    let mut line = Line::new();
    add(&mut line, b"descs ");
    add_decimal(&mut line, u64::from(count));
    add(&mut line, b"\n");
    line
}

/// The line before the memory blocks. Source: own.
#[tactic(auto, using(dpmi_io::proofs::Decimal::decimal_short))]
pub fn blocks_line(count: u32) -> Line
    ensures { result.items ≡ blocks_head count }
{
    let mut line = Line::new();
    add(&mut line, b"blocks ");
    add_decimal(&mut line, u64::from(count));
    add(&mut line, b"\n");
    line
}

/// The line of the DOS megabyte, from its digest. Source: own.
pub fn dos_line(digest: &[u8; 32]) -> Line
    ensures { result.items ≡ digest_line digest.now }
{
    let mut line = Line::new();
    add(&mut line, b"dos sha256=");
    add_digest(&mut line, digest);
    add(&mut line, b"\n");
    line
}

/// The lines of the mode, the depth and the registers. Source: own.
#[tactic(auto, using(dpmi_io::proofs::Decimal::decimal_byte))]
pub fn processor_lines(mode: Mode, depth: u8, regs: &Regs, vif: bool) -> Line
    ensures { result.items ≡ processor_text mode depth regs.now vif }
{
    let mut lines = Line::new();
    add(&mut lines, b"mode ");
    add(&mut lines, mode_name(mode));
    add(&mut lines, b"\n");
    add(&mut lines, b"depth ");
    add_decimal(&mut lines, u64::from(depth));
    add(&mut lines, b"\n");
    add(&mut lines, b"regs ");
    add_regs(&mut lines, regs, vif);
    add(&mut lines, b"\n");
    lines
}

/// The line of the number of a made client. Source: own.
#[tactic(auto, using(dpmi_io::proofs::Decimal::decimal_long))]
pub fn soak_line(number: u64) -> Line
    ensures { result.items ≡ soak_head number }
{
    let mut line = Line::new();
    add(&mut line, b"soak ");
    add_decimal(&mut line, number);
    add(&mut line, b"\n");
    line
}

/// The line of the services of INT 31h, and of those that were refused. Source: own.
#[tactic(auto, using(dpmi_io::proofs::Decimal::decimal_short))]
pub fn services_line(services: u32, carries: u32) -> Line
    ensures { result.items ≡ services_text services carries }
{
    let mut line = Line::new();
    add(&mut line, b"services ");
    add_decimal(&mut line, u64::from(services));
    add(&mut line, b" carries ");
    add_decimal(&mut line, u64::from(carries));
    add(&mut line, b"\n");
    line
}

/// The line of the console: the number of its bytes, and their digest. Source: own.
#[tactic(auto, using(dpmi_io::proofs::Decimal::decimal_short))]
pub fn console_digest_line(count: u32, digest: &[u8; 32]) -> Line
    ensures { result.items ≡ console_digest_text count digest.now }
{
    let mut line = Line::new();
    add(&mut line, b"console ");
    add_decimal(&mut line, u64::from(count));
    add(&mut line, b" sha256=");
    add_digest(&mut line, digest);
    add(&mut line, b"\n");
    line
}

/// The line of a memory block: its handle, base, pages, locked pages, and the digest of its bytes. Source: own.
#[tactic(auto, using(dpmi_io::proofs::Decimal::decimal_short))]
pub fn block_line(handle: u32, base: u32, pages: u32, locked: u32, digest: &[u8; 32]) -> Line
    ensures { result.items ≡ block_line_with handle base pages locked digest.now }
{
    let mut line = Line::new();
    add(&mut line, b"block ");
    add_decimal(&mut line, u64::from(handle));
    add_wide(&mut line, b" base=", base);
    add(&mut line, b" pages=");
    add_decimal(&mut line, u64::from(pages));
    add(&mut line, b" locked=");
    add_decimal(&mut line, u64::from(locked));
    add(&mut line, b" sha256=");
    add_digest(&mut line, digest);
    add(&mut line, b"\n");
    line
}
