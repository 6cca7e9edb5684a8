// The lines of the trace.
ghost use Rattle.std.specs.Prelude.{◌≡◌, ◌≤◌, ◌+◌, ◌++◌, length};
ghost use Rattle.dpmi_io.specs.LineEnd.{line_end};
ghost use Rattle.dpmi_report.specs.Trace.{call_text, what_text, carry_text, width_text, record_text, event_text};

use crate::digits::{add_hex_byte, add_hex_word};
use crate::lines::add_regs;
use client_world::{Call, Carry, Regs, TraceLine, What, Width};
use dpmi_io::{Line, add, add_decimal};

// Adds what was called.
fn add_call(line: &mut Line, call: Call)
    requires { length line.old.items ≤ 40 }
    ensures added { line.new.items ≡ line.old.items ++ call_text call }
    ensures short { length line.new.items ≤ length line.old.items + 10 }
{
    match call {
        Call::Int(number) => {
            add(line, b"int ");
            add_hex_byte(line, number);
        }
        Call::Far => add(line, b"far"),
        Call::Iret => add(line, b"iret"),
        Call::Reflect(number) => {
            add(line, b"reflect ");
            add_hex_byte(line, number);
        }
    }
}

// Adds what was entered or left.
#[tactic(auto, using(dpmi_io::proofs::Decimal::decimal_byte))]
fn add_what(line: &mut Line, what: What)
    requires { length line.old.items ≤ 40 }
    ensures added { line.new.items ≡ line.old.items ++ what_text what }
    ensures short { length line.new.items ≤ length line.old.items + 10 }
{
    match what {
        What::Call(call) => add_call(line, call),
        What::Back(slot) => {
            add(line, b"back ");
            add_decimal(line, u64::from(slot));
        }
        What::Exc(number) => {
            add(line, b"exc ");
            add_hex_byte(line, number);
        }
    }
}

// Adds the depth, what was called, and the registers.
#[tactic(auto, using(dpmi_io::proofs::Decimal::decimal_byte))]
fn add_record(line: &mut Line, depth: u8, what: What, regs: &Regs, vif: bool)
    requires { length line.old.items ≤ 6 }
    ensures added { line.new.items ≡ line.old.items ++ record_text depth what regs.now vif }
    ensures short { length line.new.items ≤ length line.old.items + 187 }
{
    add_decimal(line, u64::from(depth));
    add(line, b" ");
    add_what(line, what);
    add(line, b" ");
    add_regs(line, regs, vif);
}

// How a carry flag is written.
fn carry_name(carry: Carry) -> &'static [u8]
    ensures name { result.now ≡ carry_text carry }
    ensures short { length result.now ≤ 6 }
{
    match carry {
        Carry::Clear => b" ok",
        Carry::Set => b" carry",
    }
}

// How a width is written.
fn width_name(width: Width) -> &'static [u8]
    ensures name { result.now ≡ width_text width }
    ensures short { length result.now ≤ 2 }
{
    match width {
        Width::Sixteen => b"16",
        Width::ThirtyTwo => b"32",
    }
}

// Adds a service of INT 31h.
fn add_service(line: &mut Line, ax: u16, carry: Carry)
    requires { length line.old.items ≤ 6 }
    ensures added { line.new.items ≡ line.old.items ++ event_text (TraceLine.Int31 ax carry) }
    ensures short { length line.new.items ≤ length line.old.items + 200 }
{
    add(line, b"int31 ");
    add_hex_word(line, ax);
    add(line, carry_name(carry));
}

// Adds an event, without the end of its line.
fn add_event(line: &mut Line, event: &TraceLine)
    requires { length line.old.items ≤ 0 }
    ensures added { line.new.items ≡ line.old.items ++ event_text event.now }
    ensures short { length line.new.items ≤ length line.old.items + 200 }
{
    match *event {
        TraceLine::Int31 { ax, carry } => add_service(line, ax, carry),
        TraceLine::Int21(ah) => {
            add(line, b"int21 ");
            add_hex_byte(line, ah);
        }
        TraceLine::Int2f(ax) => {
            add(line, b"int2f ");
            add_hex_word(line, ax);
        }
        TraceLine::Int20 => add(line, b"int20"),
        TraceLine::Entry(width) => {
            add(line, b"entry ");
            add(line, width_name(width));
        }
        TraceLine::EntryRefused => add(line, b"entry refused"),
        TraceLine::ToProtected => add(line, b"switch protected"),
        TraceLine::ToReal => add(line, b"switch real"),
        TraceLine::Enter {
            depth,
            what,
            regs,
            vif,
        } => {
            add(line, b"enter ");
            add_record(line, depth, what, &regs, vif);
        }
        TraceLine::Leave {
            depth,
            what,
            regs,
            vif,
        } => {
            add(line, b"leave ");
            add_record(line, depth, what, &regs, vif);
        }
    }
}

/// The line of an event. Source: own.
pub fn event_line(event: &TraceLine) -> Line
    ensures { result.items ≡ event_text event.now ++ line_end }
{
    let mut line = Line::new();
    add_event(&mut line, event);
    add(&mut line, b"\n");
    line
}
