// The marked cases of clients/suite in their order, as `tools/suite --table` writes them. Bytes cost the prover less than texts, and
// short tables less than long ones.
use super::case::Case;
use super::clients_g::{G_REGION_16, G_ROW_6};
use super::clients_h_to_z::{
    HANDLER_FREED, HANDLER_FREES_CODE, HANDLER_FREES_STACK, HANDLER_NO_STACK_EXIT,
    HANDLER_OUTER_FRAME, HANDLER_PRINTS, HANDLER_RETURN_AGAIN, L_PAGE_0, L_PAGE_512, L_RELOC,
    LETTER, LIMIT_IN_PAGES, M_BLOCKS_16, P_CLIENT_BURST, P_CLIENT_FAST, P_CLIENT_QUIET,
    P_CLIENT_SLOW, PAGE_FREED, PAGE_HOST_16, PAGE_HOST_32, PAGE_MIRROR, PAGE_NONE_16,
    PAGE_READ_ONLY_16, R_ARENA, R_ENDLESS, R_SELFMOD, RETURN_AGAIN, RETURN_IN_HANDLER, RETURN_LOST,
    T_ROW_2,
};

pub(super) static TABLE_5: [Case; 17] = [
    Case {
        name: "g-region-16",
        a: Some(G_REGION_16),
        b: None,
        words: "run A.EXE --pages 16384 --trace 100",
        status: 0,
        digest: b"\x58\xEE\x51\xE0\x05\xF9\x3A\xCA\xC5\xA6\xBC\xC7\x2E\x31\x75\xF2\
            \x3F\x8C\xEC\xEC\x4A\x63\x4F\xAA\x66\x2A\x70\xD7\x2A\x50\x23\xB5",
    },
    Case {
        name: "g-row-6",
        a: Some(G_ROW_6),
        b: None,
        words: "run A.EXE --trace 150",
        status: 0,
        digest: b"\x62\x8D\x45\xAB\xE6\x42\x11\xEE\xDB\x50\x9C\x09\xE1\x3C\x0E\x34\
            \xFE\xC0\xE9\x52\x31\xB6\x25\x2E\x20\x5D\xC3\xA0\x8C\x17\x46\xA9",
    },
    Case {
        name: "handler-freed",
        a: Some(HANDLER_FREED),
        b: None,
        words: "run A.EXE",
        status: 1,
        digest: b"\xEC\x03\x8F\xED\x1D\xD9\xF6\x11\xAE\x3C\xED\x9D\x17\xDD\x38\xE6\
            \x61\x2F\xEA\x25\xC2\xB7\xAD\xC2\xA3\x47\xF9\x3E\x0E\xDB\x42\xC0",
    },
    Case {
        name: "handler-frees-code",
        a: Some(HANDLER_FREES_CODE),
        b: None,
        words: "run A.EXE",
        status: 1,
        digest: b"\x19\xE9\xD3\x3E\xD7\x7B\x3A\x3F\xBB\x96\xCE\xDB\xFA\x75\xAF\x67\
            \xFF\x01\xBB\x5B\xF3\x74\xC7\x81\x17\xE1\xB1\xF6\x83\x15\x75\x5E",
    },
    Case {
        name: "handler-frees-stack",
        a: Some(HANDLER_FREES_STACK),
        b: None,
        words: "run A.EXE",
        status: 1,
        digest: b"\xE7\x0A\x23\x4A\x44\x4A\xD0\x90\x83\x49\xDE\xCD\x89\xB8\x25\xCF\
            \x3A\x11\xB8\xB5\x71\x56\x35\xAA\xFF\x4D\x14\xC0\xDE\x69\xC3\xBE",
    },
    Case {
        name: "handler-no-stack-exit",
        a: Some(HANDLER_NO_STACK_EXIT),
        b: None,
        words: "run A.EXE",
        status: 0,
        digest: b"\x6C\xCA\xE7\x89\x2E\xE6\x52\x07\xFA\xD3\xBF\x77\xE9\x09\x5B\xC9\
            \xA9\xB5\x7F\x9C\xD7\x19\x53\x60\x5E\x00\x09\x65\x28\x01\xD8\xF5",
    },
    Case {
        name: "handler-outer-frame",
        a: Some(HANDLER_OUTER_FRAME),
        b: None,
        words: "run A.EXE",
        status: 0,
        digest: b"\xB6\xFE\x0E\xF4\x2A\x58\xFC\x25\x1E\x2A\xA3\x34\xF6\x25\x08\x3E\
            \x1B\x1F\xF1\x8D\xAE\xB2\x9F\x04\x47\x3B\x5F\x33\xD9\x17\x24\xF7",
    },
    Case {
        name: "handler-prints",
        a: Some(HANDLER_PRINTS),
        b: None,
        words: "run A.EXE",
        status: 0,
        digest: b"\x9C\xE1\xD4\xB3\x4C\xAF\x2E\x70\x68\x93\x85\x03\x74\x16\xAE\xD3\
            \x1B\xCB\x41\x48\xD0\x00\x1E\x1A\x75\xF8\xB5\xC5\x44\x13\x44\x0E",
    },
    Case {
        name: "handler-return-again",
        a: Some(HANDLER_RETURN_AGAIN),
        b: None,
        words: "run A.EXE",
        status: 1,
        digest: b"\xDE\xA0\xB7\xBE\x7F\x31\x80\xB5\x3A\x84\xDE\xBF\x79\xDC\xF9\xCF\
            \xAF\xB7\x75\xD0\x95\xE1\x0E\xD4\xBE\x2B\xE6\x1D\xF3\x60\x8A\x42",
    },
    Case {
        name: "l-page-0",
        a: Some(L_PAGE_0),
        b: None,
        words: "run A.EXE --trace 20",
        status: 0,
        digest: b"\xE4\xED\x8E\x63\x65\x3B\x1B\xA8\x34\x50\x77\x39\x00\xED\x56\x3A\
            \xB3\x22\x52\x03\x50\xDD\xB9\x59\xBB\xD2\x95\x9E\x60\x67\x03\xE9",
    },
    Case {
        name: "l-page-512",
        a: Some(L_PAGE_512),
        b: None,
        words: "run A.EXE --trace 20",
        status: 0,
        digest: b"\xE4\xED\x8E\x63\x65\x3B\x1B\xA8\x34\x50\x77\x39\x00\xED\x56\x3A\
            \xB3\x22\x52\x03\x50\xDD\xB9\x59\xBB\xD2\x95\x9E\x60\x67\x03\xE9",
    },
    Case {
        name: "l-reloc",
        a: Some(L_RELOC),
        b: None,
        words: "run A.EXE --trace 20",
        status: 0,
        digest: b"\x82\x5F\xAB\xDE\xFA\x15\x9A\xEC\x8C\xFF\xDE\xD5\x73\xD2\x7A\x35\
            \xFD\xF7\x04\x6B\x79\xE4\x5B\x77\x16\x23\xFF\x8D\x33\x86\x25\x54",
    },
    Case {
        name: "letter",
        a: Some(LETTER),
        b: None,
        words: "run A.EXE",
        status: 0,
        digest: b"\x7A\xC4\x58\xE0\x00\xD2\xAC\x72\xFB\x88\x42\xA8\x8B\xED\x3E\x21\
            \xFA\x38\x31\x5C\xAB\x5B\xC0\x2A\x47\xBB\x3B\x23\x6F\x9E\x18\xDF",
    },
    Case {
        name: "letter-bound",
        a: Some(LETTER),
        b: None,
        words: "run A.EXE --bound 1",
        status: 1,
        digest: b"\xB3\x87\xA6\xAA\x5F\xE6\x61\x5C\x0D\xAE\xE3\x60\x6B\x7C\x7F\x15\
            \x11\x79\xB6\xE3\x3D\xD4\xF3\x7B\xD4\x40\x1A\xBA\xC7\x07\xBD\x97",
    },
    Case {
        name: "limit-in-pages",
        a: Some(LIMIT_IN_PAGES),
        b: None,
        words: "run A.EXE",
        status: 0,
        digest: b"\x7A\x7F\x9F\x61\xCD\x50\xEB\x33\x09\x70\xDB\xAC\x2C\xA7\x31\x1D\
            \x3F\xE7\xC3\xC1\x89\x71\x51\xD8\xB9\x9B\x89\x35\x77\x72\x5C\xB6",
    },
    Case {
        name: "m-blocks-16",
        a: Some(M_BLOCKS_16),
        b: None,
        words: "run A.EXE",
        status: 0,
        digest: b"\xEF\x7B\x21\x28\xDB\x2A\x89\x89\xD9\xF5\xEF\x4A\x7F\xFD\x6D\x31\
            \x1D\x07\xFE\xDC\x78\x1D\x88\x56\x7F\x86\x5D\x3B\xD9\xA7\x9D\x77",
    },
    Case {
        name: "p-bound-1",
        a: Some(T_ROW_2),
        b: Some(T_ROW_2),
        words: "pair A.EXE B.EXE --bound 1 --slice 3",
        status: 1,
        digest: b"\x77\x27\xD8\x83\x7A\xCB\xC9\x0E\x9E\x40\x15\xAB\x02\x61\x01\xAE\
            \xC6\x87\xDA\x5D\xC0\xDF\x88\xAE\x60\xCA\x0A\x66\xD6\x00\x83\x3E",
    },
];

pub(super) static TABLE_6: [Case; 17] = [
    Case {
        name: "p-endless-both",
        a: Some(R_ENDLESS),
        b: Some(R_ENDLESS),
        words: "pair A.EXE B.EXE --bound 100 --slice 7",
        status: 1,
        digest: b"\x1B\xA5\x54\xA7\x2C\x5A\xC1\xA4\x19\xE7\xF7\x0D\x58\x55\xBE\x2C\
            \xC9\x26\xFC\x24\xEF\x83\x29\x96\x4F\xA1\x00\xB0\x61\x09\xF8\x48",
    },
    Case {
        name: "p-one-slice",
        a: Some(P_CLIENT_SLOW),
        b: Some(P_CLIENT_FAST),
        words: "pair A.EXE B.EXE --slice 1000000",
        status: 0,
        digest: b"\xE0\x89\xE7\x43\x8F\xD7\xD2\x05\x32\xEF\x04\xE4\xF6\x68\xC4\x9D\
            \xBE\x7F\x48\x45\x2C\x13\xEA\xC7\xA3\x2A\x2D\xED\xAD\x73\xCC\x64",
    },
    Case {
        name: "p-quiet",
        a: Some(P_CLIENT_QUIET),
        b: Some(P_CLIENT_BURST),
        words: "pair A.EXE B.EXE --slice 16",
        status: 0,
        digest: b"\x08\x56\xD7\x72\xB1\x4C\x4D\xB0\xB1\x53\x08\xEB\x94\x28\xE3\xA0\
            \xE1\x1F\xFB\xB6\xEC\x90\xD8\x6F\xF0\x0D\x29\x8D\xA9\xDE\xD9\xE3",
    },
    Case {
        name: "p-row",
        a: Some(T_ROW_2),
        b: Some(T_ROW_2),
        words: "pair A.EXE B.EXE --slice 3",
        status: 0,
        digest: b"\x17\xF4\xF9\xC7\x83\xE8\x0E\xB8\xF8\x5E\x6C\xA3\x8D\x95\x62\x93\
            \x90\xBB\x29\x75\xE9\xBC\x59\xA7\x7E\x4A\x20\xB8\x17\xD3\x63\x9D",
    },
    Case {
        name: "p-slice-1",
        a: Some(T_ROW_2),
        b: Some(T_ROW_2),
        words: "pair A.EXE B.EXE --slice 1",
        status: 0,
        digest: b"\x39\x8E\x1F\xE6\x89\xFB\x52\xF7\xAB\x47\x34\x68\xFE\x75\x3A\x3E\
            \x39\x77\xF2\xC3\x81\x49\x74\x1B\x22\x72\x83\x75\x8E\x1C\xA3\xE3",
    },
    Case {
        name: "page-freed",
        a: Some(PAGE_FREED),
        b: None,
        words: "run A.EXE",
        status: 1,
        digest: b"\x46\xAB\x62\x5B\x66\xA3\x0C\x40\x8A\x3F\x88\x20\x26\x70\x73\xD2\
            \xAE\xFC\xDF\xED\x5B\x40\xED\xD7\x7E\x37\x5C\x9D\xBA\x82\xF6\x5F",
    },
    Case {
        name: "page-host-16",
        a: Some(PAGE_HOST_16),
        b: None,
        words: "run A.EXE",
        status: 1,
        digest: b"\xAA\x50\x45\x73\x75\x07\x47\x75\x26\x7E\x76\xCA\xBB\xDE\x62\x19\
            \x2A\x9A\x23\x76\x63\xB0\x31\x81\xE7\x2D\x38\xA6\xA5\xDB\xA9\xDB",
    },
    Case {
        name: "page-host-32",
        a: Some(PAGE_HOST_32),
        b: None,
        words: "run A.EXE",
        status: 1,
        digest: b"\xEA\x92\xE7\xA9\x2D\x8F\x81\xB4\x3E\x16\xF8\x0D\x7A\xC0\x00\xE9\
            \xBB\xD9\x44\x7B\x31\x22\x02\x8D\x15\xDB\x5E\x1F\xD6\x5F\x3F\xE4",
    },
    Case {
        name: "page-mirror",
        a: Some(PAGE_MIRROR),
        b: None,
        words: "run A.EXE",
        status: 0,
        digest: b"\xAC\xF5\x81\x13\xB5\xEB\xF8\x5F\xDD\x61\x36\xED\x40\x6C\xE7\x73\
            \xAD\x35\x87\x27\xB8\x33\x95\x93\x26\x23\x6A\x35\x8E\xA2\xED\xC4",
    },
    Case {
        name: "page-none-16",
        a: Some(PAGE_NONE_16),
        b: None,
        words: "run A.EXE",
        status: 1,
        digest: b"\xFC\x1D\x17\x98\xD5\xC8\xCE\xDB\xF2\xDE\xC1\x88\x62\x16\xBC\xC6\
            \x17\xB0\xB2\x51\x3E\x32\xC0\xAB\x8B\xC5\x08\xE6\xC9\xEC\xD2\xDE",
    },
    Case {
        name: "page-read-only-16",
        a: Some(PAGE_READ_ONLY_16),
        b: None,
        words: "run A.EXE",
        status: 1,
        digest: b"\xD1\x25\xCA\x60\xB5\xE2\x06\x16\xAF\xBD\xC4\xB6\xAB\x8A\x29\x30\
            \xA6\x86\x20\x98\xFB\xA1\xF5\x68\x05\xC3\x6F\xB0\xB2\x86\x2F\x58",
    },
    Case {
        name: "r-arena",
        a: Some(R_ARENA),
        b: None,
        words: "run A.EXE --trace 20",
        status: 0,
        digest: b"\x71\x20\xBE\x85\x07\x95\x47\xDE\xB7\x5B\x6B\x38\x34\x70\xE5\x27\
            \x39\x67\x9C\xB7\x6B\x38\xCE\xC9\x76\xBC\x54\x7C\x58\x01\x89\x97",
    },
    Case {
        name: "r-selfmod",
        a: Some(R_SELFMOD),
        b: None,
        words: "run A.EXE --trace 20",
        status: 0,
        digest: b"\xFC\x2F\x5C\x90\x53\xE9\xA5\x34\x6E\x09\x00\x65\x3B\x49\x84\xBF\
            \xF0\x0D\xEC\x27\xD7\x50\xDB\x79\x5D\x85\x80\x30\x40\x6B\xB0\x93",
    },
    Case {
        name: "return-again",
        a: Some(RETURN_AGAIN),
        b: None,
        words: "run A.EXE",
        status: 1,
        digest: b"\x53\xF4\xDF\x7D\x3E\x5F\x59\x1F\x7C\x3A\xD1\xE6\x96\x9D\x72\x30\
            \x24\x85\x09\x22\x64\x94\x10\x11\x67\x83\xFE\xD9\x87\x5C\x02\xCB",
    },
    Case {
        name: "return-in-handler",
        a: Some(RETURN_IN_HANDLER),
        b: None,
        words: "run A.EXE",
        status: 1,
        digest: b"\x11\x7E\xA7\x83\x93\x33\xDF\xD5\x6A\x0B\x24\x1F\xA6\x6B\x82\xCE\
            \x76\x18\xF4\xDD\xEA\x4F\x58\x97\xCB\x09\x94\x3F\xD2\x12\xAE\x04",
    },
    Case {
        name: "return-lost",
        a: Some(RETURN_LOST),
        b: None,
        words: "run A.EXE",
        status: 1,
        digest: b"\x0E\xD0\x8D\x1E\x0A\x28\x7D\x64\x96\x0C\xC4\xDB\xDD\xF1\xD5\xAD\
            \xBD\xA5\x8F\x9E\xEF\xF7\x4E\xDC\x1C\xBA\x53\x29\xC6\x8A\x95\x21",
    },
    Case {
        name: "s-soak-7",
        a: None,
        b: None,
        words: "soak 7",
        status: 0,
        digest: b"\x19\x2E\xAA\xC3\x0C\x4E\x25\x54\x83\x2E\xC4\xC4\x18\xD0\xFB\x47\
            \x27\x3A\x81\x59\xBA\xF3\x74\xE9\xC1\xF5\x23\xF5\x54\x53\x9B\x5A",
    },
];
