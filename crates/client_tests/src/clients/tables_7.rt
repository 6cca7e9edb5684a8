// The marked cases of clients/suite in their order, as `tools/suite --table` writes them. Bytes cost the prover less than texts, and
// short tables less than long ones.
use super::case::Case;
use super::clients_h_to_z::{
    STACK_OF_FOUR_BYTES, STRING_LIMIT, SWITCH_AFTER_LAST, SWITCH_ES_FREE, SWITCH_INSIDE_CALL,
    SWITCH_LAST_BYTE, SWITCH_PRINTS, SWITCH_SS_LEVEL, T_ROW_2, T_ROW_7, TIMER_OWN_HANDLER, W_ROW,
    W_SEVENTEEN, W_SIXTEEN_16, X_FRAME_32,
};

pub(super) static TABLE_7: [Case; 15] = [
    Case {
        name: "stack-of-four-bytes",
        a: Some(STACK_OF_FOUR_BYTES),
        b: None,
        words: "run A.EXE",
        status: 1,
        digest: b"\xE2\x4B\x86\xB7\x15\x27\x1E\xA4\x00\x70\xD7\xBC\x15\x77\x5F\x60\
            \xD8\x39\x1B\x47\x0F\x1D\xD5\xF6\xD7\x4A\xEB\x91\xB5\x09\x17\x28",
    },
    Case {
        name: "string-limit",
        a: Some(STRING_LIMIT),
        b: None,
        words: "run A.EXE",
        status: 1,
        digest: b"\x1D\xE5\xA9\x35\xD9\x14\x86\xDB\xE0\x06\xC9\x4E\x5F\x89\x5A\x8A\
            \x11\x23\x1A\x3F\x73\x7F\x1E\x12\xF5\x70\x9A\x67\x08\x93\xF4\xBF",
    },
    Case {
        name: "switch-after-last",
        a: Some(SWITCH_AFTER_LAST),
        b: None,
        words: "run A.EXE --bound 18",
        status: 1,
        digest: b"\x3F\x02\x24\x5F\x98\xD7\x71\x6C\x6F\x49\xFA\xBC\x16\x4B\x28\x41\
            \x2F\x71\x4B\x71\x84\x6D\xCC\xCD\x0C\x67\x4D\xB2\x33\xE5\xFC\x02",
    },
    Case {
        name: "switch-es-free",
        a: Some(SWITCH_ES_FREE),
        b: None,
        words: "run A.EXE",
        status: 1,
        digest: b"\x08\x42\x94\x4F\x8D\xC3\xD6\x95\xD4\x1D\xB9\x5C\x28\x6D\x5C\x5E\
            \xAE\xE4\xEA\x1B\xBD\xCA\x5F\xE6\x0C\x0D\x57\x56\x62\x23\x70\x4A",
    },
    Case {
        name: "switch-inside-call",
        a: Some(SWITCH_INSIDE_CALL),
        b: None,
        words: "run A.EXE",
        status: 0,
        digest: b"\xF5\xB0\x18\xF9\x78\x27\x00\x76\xF6\x07\x33\x85\x22\xC1\xF8\x24\
            \xCC\xCD\xA3\x7F\x90\x17\x56\xD4\xE4\x23\x27\x59\xA0\x08\x53\x0B",
    },
    Case {
        name: "switch-last-byte",
        a: Some(SWITCH_LAST_BYTE),
        b: None,
        words: "run A.EXE --bound 18",
        status: 1,
        digest: b"\x6C\xA8\xF5\xB1\xC3\x37\xBA\x0E\xBF\xDB\xE3\x21\x8D\x92\x76\x44\
            \x82\xF0\xF7\xD3\x4C\x7F\x31\x14\x02\xB8\xF0\x01\x82\x21\x68\x70",
    },
    Case {
        name: "switch-prints",
        a: Some(SWITCH_PRINTS),
        b: None,
        words: "run A.EXE",
        status: 0,
        digest: b"\x4C\xE3\x73\x71\xFD\xA9\x96\xAA\x3B\x18\x2E\x83\xB6\x25\xAD\xAB\
            \x1B\xD7\x0B\x39\x5F\x67\x48\xD4\x50\xEE\x7C\x9E\x55\xE7\x82\xE2",
    },
    Case {
        name: "switch-ss-level",
        a: Some(SWITCH_SS_LEVEL),
        b: None,
        words: "run A.EXE",
        status: 1,
        digest: b"\x49\xFA\xAE\x29\x64\xCB\x19\x53\x79\x3E\x45\x34\x9C\x0A\x48\xF5\
            \x84\x97\xAB\x97\xC9\x80\x86\xF9\x18\xDC\xE5\x55\x91\x6E\x52\x39",
    },
    Case {
        name: "t-row-2",
        a: Some(T_ROW_2),
        b: None,
        words: "run A.EXE --timer 3",
        status: 0,
        digest: b"\xF3\x7E\xBD\x35\x45\x2F\xA7\x67\x3A\x29\xB3\xA7\x72\xD3\x04\x32\
            \xE0\x7D\xB7\x30\x70\x21\xF3\xC6\xD6\xF9\xC4\xCB\x7E\x60\xF5\x72",
    },
    Case {
        name: "t-row-7",
        a: Some(T_ROW_7),
        b: None,
        words: "run A.EXE --timer 10",
        status: 0,
        digest: b"\xD1\x7E\x47\x4F\xE5\xD6\xD1\xD1\x51\xA0\xAE\x31\xAA\x7A\x56\x05\
            \x33\xBC\x2B\x12\x4B\xDE\x34\x64\xFA\xBE\xAB\x32\x9E\xE6\xE0\x3F",
    },
    Case {
        name: "timer-own-handler",
        a: Some(TIMER_OWN_HANDLER),
        b: None,
        words: "run A.EXE --timer 18",
        status: 0,
        digest: b"\x68\xFE\x51\xBB\x1E\x2D\xDD\xF8\xAA\xFD\x51\x3E\x9E\x53\x1C\x24\
            \x46\xBB\x14\xD6\xF0\xCC\x4A\xA9\x20\x01\x14\x85\x98\x51\xA4\x33",
    },
    Case {
        name: "w-row",
        a: Some(W_ROW),
        b: None,
        words: "run A.EXE --trace 60",
        status: 1,
        digest: b"\x8F\x8C\x03\x2C\x12\x28\x44\x4D\x47\x07\xDD\x2B\xF6\x9D\xCA\x40\
            \x35\xE3\x09\x87\xE5\xE3\x08\xA2\xA7\xA1\x7E\xD3\xDA\x80\xE9\x7E",
    },
    Case {
        name: "w-seventeen",
        a: Some(W_SEVENTEEN),
        b: None,
        words: "run A.EXE",
        status: 0,
        digest: b"\x67\x6B\x18\xD6\x04\x33\xDF\xE8\x48\xCA\xBD\xE9\xBC\x5F\x5F\xCA\
            \x5B\x40\x69\x8A\xEE\xD6\xFD\xA4\xBA\x60\x35\x54\x27\xE6\x7D\x39",
    },
    Case {
        name: "w-sixteen-16",
        a: Some(W_SIXTEEN_16),
        b: None,
        words: "run A.EXE --trace 60",
        status: 0,
        digest: b"\x55\x3C\xA1\x7C\xA8\x5D\x86\x4F\xFB\x72\x87\xBF\xCD\x32\xBD\x70\
            \xAC\x57\x34\xBF\xCB\xD7\xFB\xA5\x3A\xB3\x13\xD7\x1C\x5C\xD8\xD2",
    },
    Case {
        name: "x-frame-32",
        a: Some(X_FRAME_32),
        b: None,
        words: "run A.EXE",
        status: 0,
        digest: b"\x56\xF0\x3F\x97\x8C\x71\x88\x63\x29\x98\x8F\x0A\x14\x3C\x1E\x0B\
            \xBB\x81\x9B\x34\xC6\x11\x8C\x38\x82\xB9\xB6\x89\xB6\x23\xC6\xEE",
    },
];
