// The marked cases of clients/suite in their order, as `tools/suite --table` writes them. Bytes cost the prover less than texts, and
// short tables less than long ones.
use super::case::Case;
use super::clients_a_to_b::{
    B_LOST_OUTER, BASE_MOVED, BLOCK_AFTER_END, BLOCK_FREED_CODE, BLOCK_FREED_POP, BLOCK_FREED_READ,
    BLOCK_FREED_WRITE, BLOCK_GROWN, BLOCK_KEPT, BLOCK_MOVED, BLOCK_SHRUNK,
};
use super::clients_c_to_e::{
    C_USUAL_32, CALL_ENDLESS, CALL_ENTRY_AGAIN, CALL_SEGMENTS, CALL_STACK_OVER_EAX,
    CALL_STACK_OVER_STRUCTURE, CALL_STACK_WRAPS, CALL_STRUCTURE_ROM, CALLBACK_FREED_INSIDE,
    CALLBACK_PRINTS, CALLBACK_SHORT_STRUCTURE, CALLBACK_STRUCTURES, CODE_OVER_ITSELF,
};

pub(super) static TABLE_1: [Case; 17] = [
    Case {
        name: "b-lost-outer",
        a: Some(B_LOST_OUTER),
        b: None,
        words: "run A.EXE --trace 400",
        status: 1,
        digest: b"\xFD\xE4\x95\xC5\xF5\x9E\xD2\x8B\x2B\xAF\x01\x3C\x4D\x08\x34\x70\
            \x1C\x68\xC5\xDA\x46\x98\x32\x07\xA7\xBF\x56\xA3\xE9\xED\xB3\xEA",
    },
    Case {
        name: "base-moved",
        a: Some(BASE_MOVED),
        b: None,
        words: "run A.EXE",
        status: 0,
        digest: b"\xBD\x31\xC8\x79\x4C\xFD\x2E\x09\xD9\x48\x9A\x46\x0C\x67\xA7\xA7\
            \xF6\xDC\xD8\x16\x67\x5E\x7F\xF9\xBE\x8D\xB8\xBE\xFE\xE3\xBA\x74",
    },
    Case {
        name: "block-after-end",
        a: Some(BLOCK_AFTER_END),
        b: None,
        words: "run A.EXE",
        status: 1,
        digest: b"\x2D\xA9\x81\xEB\x74\xDC\xE7\xEA\x19\xBE\x76\x66\x87\xDC\x0C\xE2\
            \x55\x95\xF1\xAF\x31\x26\xFA\x72\xB3\x8D\x8A\xCE\xFA\x82\xF7\x09",
    },
    Case {
        name: "block-freed-code",
        a: Some(BLOCK_FREED_CODE),
        b: None,
        words: "run A.EXE",
        status: 1,
        digest: b"\x81\x2B\xFC\x0A\x53\xEC\xD8\x28\x30\x31\x03\xF2\x19\x55\x5E\x60\
            \x78\xE3\x4F\x4B\x64\xB0\x20\x48\x09\xBE\xD8\x7C\x72\xC3\xF6\xE3",
    },
    Case {
        name: "block-freed-pop",
        a: Some(BLOCK_FREED_POP),
        b: None,
        words: "run A.EXE",
        status: 1,
        digest: b"\xAC\xD2\x04\xA8\x0A\xAF\xA3\xE4\x5A\x30\xE2\xBF\x9E\x2E\x19\x8A\
            \x7E\xB9\x1F\x1E\x71\xB5\x88\x66\xF8\xEF\xA0\x98\x39\x77\x12\xE4",
    },
    Case {
        name: "block-freed-read",
        a: Some(BLOCK_FREED_READ),
        b: None,
        words: "run A.EXE",
        status: 1,
        digest: b"\x59\x1F\xD9\xD6\xAD\x04\xE6\x72\xBC\xCA\x91\x3A\x63\x8A\xBB\xB4\
            \xC4\x88\xFB\xB8\xD5\xAF\x74\xBB\x9F\xC5\x6E\xCA\x9E\x5C\x55\x55",
    },
    Case {
        name: "block-freed-write",
        a: Some(BLOCK_FREED_WRITE),
        b: None,
        words: "run A.EXE",
        status: 1,
        digest: b"\x4C\x70\xF7\xD4\xF9\x38\x10\x93\x84\x6C\xDF\x86\x24\x15\xDE\x40\
            \xFB\xFD\x87\xFE\xAB\x90\xF5\xE3\x73\xBD\x50\xEC\x84\x5F\xE7\x62",
    },
    Case {
        name: "block-grown",
        a: Some(BLOCK_GROWN),
        b: None,
        words: "run A.EXE --pages=8",
        status: 0,
        digest: b"\xEC\xD2\xEB\x42\x9E\x26\x58\x9D\x5B\xC9\x92\x60\x5F\xE6\x83\xBB\
            \xAD\x30\x1A\xAC\x55\x4D\x8A\x4D\xFC\x07\x5B\x5D\xA1\x88\x46\xC7",
    },
    Case {
        name: "block-kept",
        a: Some(BLOCK_KEPT),
        b: None,
        words: "run A.EXE",
        status: 0,
        digest: b"\x99\xBA\xBB\xAA\x75\x36\x29\x3A\x3A\xAD\x81\xF7\xBD\x03\xA8\x17\
            \x53\x63\xBD\x54\x89\xDF\x2F\x31\x2B\xC6\x71\xCF\xF2\x59\xEB\x38",
    },
    Case {
        name: "block-moved",
        a: Some(BLOCK_MOVED),
        b: None,
        words: "run A.EXE",
        status: 1,
        digest: b"\xE0\xB3\x65\xCD\xE5\xDF\xE1\x16\xCC\xB2\x79\xBA\x2D\xB6\xD1\x3E\
            \xD6\x2A\x2D\x3C\xAD\x2C\x1A\x82\xE0\x2B\x25\x85\x4D\xFD\xFE\x6F",
    },
    Case {
        name: "block-shrunk",
        a: Some(BLOCK_SHRUNK),
        b: None,
        words: "run A.EXE",
        status: 1,
        digest: b"\x10\xEF\xF2\x65\xB0\xD1\x37\x09\x00\xCC\x00\x5B\x1B\xBE\xDE\x5A\
            \xD0\xCD\x9A\xCF\x1A\x8E\x35\xE0\x28\x67\x52\x59\xD7\xF6\x72\xA8",
    },
    Case {
        name: "c-usual-32",
        a: Some(C_USUAL_32),
        b: None,
        words: "run A.EXE --trace 100",
        status: 0,
        digest: b"\x72\x8E\x1C\x2A\x31\x21\x7D\xE3\xE1\xFD\xDD\x9A\x82\x2F\x5A\x9F\
            \x00\xFC\x4C\x94\xD2\x77\x3A\xA5\x5F\xF2\x75\x1E\x18\x40\x56\x4A",
    },
    Case {
        name: "call-endless",
        a: Some(CALL_ENDLESS),
        b: None,
        words: "run A.EXE --bound 100",
        status: 1,
        digest: b"\x6A\x0F\xBF\x6E\x3C\xE0\x00\xAA\xCE\x55\x76\xBC\x12\x41\x52\xF7\
            \x49\x66\x8D\x1E\x30\x64\x6D\x5D\x45\x3B\x2F\x01\xC8\x50\x0E\x84",
    },
    Case {
        name: "call-entry-again",
        a: Some(CALL_ENTRY_AGAIN),
        b: None,
        words: "run A.EXE",
        status: 0,
        digest: b"\xF9\xB2\x69\x00\xEB\xC5\xE1\x6B\x91\x0F\x8C\x55\x3B\xB8\x5E\x83\
            \xB8\x85\x40\xA5\xA6\x7B\x4B\xAF\x27\xDF\x48\xFA\x38\xDC\x9D\x96",
    },
    Case {
        name: "call-segments",
        a: Some(CALL_SEGMENTS),
        b: None,
        words: "run A.EXE",
        status: 0,
        digest: b"\xF8\xF6\xB4\x43\x2A\x94\xD6\x17\xC4\xF5\x08\x3D\x65\xB6\x27\x15\
            \x62\x4A\xF0\xCD\x07\x20\xB5\x58\xDC\x37\xE9\xDA\xEB\xB7\x35\xFA",
    },
    Case {
        name: "call-stack-over-eax",
        a: Some(CALL_STACK_OVER_EAX),
        b: None,
        words: "run A.EXE",
        status: 0,
        digest: b"\x94\x4D\x2C\x97\x7F\xED\x81\xE1\xF6\x88\xC6\x3C\x64\xE9\xB3\x8B\
            \x39\x5A\x74\x39\x3C\xD5\x99\x8A\xD4\x9C\xE5\xED\x55\xA1\x34\x92",
    },
    Case {
        name: "call-stack-over-structure",
        a: Some(CALL_STACK_OVER_STRUCTURE),
        b: None,
        words: "run A.EXE",
        status: 0,
        digest: b"\xD7\xB3\x09\x52\x2B\xC8\x3F\x32\x43\xAF\x8F\x86\xF4\x99\xEA\x1A\
            \xCC\x0E\xE7\xA1\x47\x2C\x2A\x7E\x41\x4B\xCC\xBF\x0F\x59\xC4\xCE",
    },
];

pub(super) static TABLE_2: [Case; 7] = [
    Case {
        name: "call-stack-wraps",
        a: Some(CALL_STACK_WRAPS),
        b: None,
        words: "run A.EXE",
        status: 0,
        digest: b"\x45\xCD\xF0\x07\xF9\x53\xF8\xA8\xDA\x9C\xDE\x78\x25\xEF\x39\xED\
            \xEE\x40\xA3\x62\x19\xE2\x2E\xCF\x62\x63\xAF\x1C\xF5\x55\x16\x67",
    },
    Case {
        name: "call-structure-rom",
        a: Some(CALL_STRUCTURE_ROM),
        b: None,
        words: "run A.EXE",
        status: 0,
        digest: b"\x18\x8D\x6F\x6C\x56\x34\xE3\x04\xAD\x15\xFF\x35\x29\x4B\x89\x74\
            \xF4\x5A\xA3\x8A\x9C\xF9\xBA\x95\xE8\x10\x0C\xC3\xB0\xFF\xA2\x9B",
    },
    Case {
        name: "callback-freed-inside",
        a: Some(CALLBACK_FREED_INSIDE),
        b: None,
        words: "run A.EXE",
        status: 0,
        digest: b"\x95\x68\x55\x5D\xAE\xC3\x7B\x49\xF1\x52\xE2\x3E\xE1\x03\x6A\x4E\
            \xC4\xCE\x97\x7D\xCE\x97\x95\x81\xA3\xA4\x91\x61\x86\x02\xFA\x08",
    },
    Case {
        name: "callback-prints",
        a: Some(CALLBACK_PRINTS),
        b: None,
        words: "run A.EXE",
        status: 0,
        digest: b"\xF8\x35\x69\xA4\xEF\xB1\x49\x34\xCB\x9C\x3E\x40\x8E\xF1\xF4\xB5\
            \x48\x8B\x95\x9B\x4D\x14\xE7\x43\xEA\xB2\x65\x20\xD8\x3A\x41\x6B",
    },
    Case {
        name: "callback-short-structure",
        a: Some(CALLBACK_SHORT_STRUCTURE),
        b: None,
        words: "run A.EXE",
        status: 1,
        digest: b"\xA4\x02\x27\x7E\x12\x98\xF4\x81\x93\x01\x46\x3E\x77\x7C\xCB\x09\
            \xEE\xF1\x9C\xBB\xA1\x8F\x28\x6A\x51\x37\x44\x34\xE0\xB7\x42\x1B",
    },
    Case {
        name: "callback-structures",
        a: Some(CALLBACK_STRUCTURES),
        b: None,
        words: "run A.EXE",
        status: 0,
        digest: b"\x11\x95\x33\xE3\x5B\xF3\xA9\xC9\xA5\xB4\xE5\xA0\xF6\x23\x39\x29\
            \x4D\x50\x77\xB1\x41\x9B\x30\x0B\xD1\xB4\xB5\x2A\x9C\x93\xDE\xE5",
    },
    Case {
        name: "code-over-itself",
        a: Some(CODE_OVER_ITSELF),
        b: None,
        words: "run A.EXE",
        status: 0,
        digest: b"\x9B\x71\x78\x29\xF9\x33\xDB\x95\x1B\x6B\xFE\x79\x3B\x02\x94\x51\
            \x16\x6C\x7C\x51\xFA\xAB\x0B\x9B\x9E\x12\xE5\x99\x43\xDB\x91\x86",
    },
];
