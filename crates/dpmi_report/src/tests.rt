// Lines of the text.
use crate::lines::{block_line, descriptor_line};
use crate::trace::event_line;
use client_world::{Call, Carry, Desc, Kind, Origin, Regs, TraceLine, What, Width};
use std::test::Fail;

// Events and their lines.
const EVENTS: [(TraceLine, &str); 11] = [
    (
        TraceLine::Int31 {
            ax: 0x0400,
            carry: Carry::Clear,
        },
        "int31 0400 ok\n",
    ),
    (
        TraceLine::Int31 {
            ax: 0x000A,
            carry: Carry::Set,
        },
        "int31 000a carry\n",
    ),
    (TraceLine::Int21(2), "int21 02\n"),
    (TraceLine::Int2f(0x1687), "int2f 1687\n"),
    (TraceLine::Int20, "int20\n"),
    (TraceLine::Entry(Width::Sixteen), "entry 16\n"),
    (TraceLine::Entry(Width::ThirtyTwo), "entry 32\n"),
    (TraceLine::EntryRefused, "entry refused\n"),
    (TraceLine::ToProtected, "switch protected\n"),
    (TraceLine::ToReal, "switch real\n"),
    (
        TraceLine::Enter {
            depth: 15,
            what: What::Call(Call::Reflect(0x21)),
            regs: Regs::ZERO,
            vif: true,
        },
        "enter 15 reflect 21 eax=00000000 ebx=00000000 ecx=00000000 edx=00000000 esi=00000000 edi=00000000 ebp=00000000 esp=00000000 \
        eip=00000000 fl=0202 cs=0000 ss=0000 ds=0000 es=0000 fs=0000 gs=0000\n",
    ),
];

#[test]
fn each_event_has_its_line(rt: HostRuntime) -> Result<(), Fail> {
    for (event, text) in EVENTS {
        let line = event_line(&event);
        assert!(rt; line.as_slice() == text.as_bytes(), "{text}");
    }
    Ok(())
}

// The first descriptor of a client after its entry, and the same with 32 bits and a limit of pages.
#[test]
fn each_descriptor_has_its_line(rt: HostRuntime) -> Result<(), Fail> {
    let code = Desc::plain(Kind::Code, 0x740, 0xFFFF, false);
    let line = descriptor_line(0x207, &code, Origin::Entry);
    assert!(rt;
        line.as_slice()
            == b"desc 0207 base=00000740 limit=0000ffff access=fb flags=0 origin=entry\n".as_slice()
    );
    let flat = Desc {
        gran: true,
        ..Desc::plain(Kind::WRITABLE_DATA, 0x740, 0xFFFFF, true)
    };
    let line = descriptor_line(0x22F, &flat, Origin::Own);
    assert!(rt;
        line.as_slice()
            == b"desc 022f base=00000740 limit=ffffffff access=f3 flags=c origin=own\n".as_slice()
    );
    let block = block_line(1, 0x40_0000, 64, 0, &[0xA5; 32]);
    assert!(rt;
        block.as_slice()
            == b"block 1 base=00400000 pages=64 locked=0 sha256=a5a5a5a5a5a5a5a5a5a5a5a5a5a5a5a5a5a5a5a5a5a5a5a5a5a5a5a5a5a5a5a5\
                \n"
                .as_slice()
    );
    Ok(())
}
