// The marked cases of clients/suite in their order, as `tools/suite --table` writes them. Bytes cost the prover less than texts, and
// short tables less than long ones.
use super::case::Case;
use super::clients_c_to_e::{D_BYTES_16, D_MINIMAL_32, DESCRIPTORS_ALL, DOS_BLOCK};
use super::clients_f::{
    F_DESC_16, F_HANDLES_16, F_NORUN_16, F_PAGES, F_UNKNOWN_16, FLAT_BLOCK, FRAME_CS_NULL,
    FRAME_FLAGS_ALL, FRAME_FLAGS_NONE, FRAME_SS_CODE, FRAME_SS_OTHER, FREED_CODE, FREED_DATA,
    FREED_STACK,
};
use super::clients_g::{G_BACK_16, G_BLOCKS_16, G_DEEP_EVEN_16, G_INFO_16, G_MANY_16};

pub(super) static TABLE_3: [Case; 8] = [
    Case {
        name: "d-bytes-16",
        a: Some(D_BYTES_16),
        b: None,
        words: "run A.EXE",
        status: 0,
        digest: b"\xEA\x52\xE9\xE1\x56\xF3\xED\x96\xAE\xA2\xDE\x69\xBC\x39\x82\xA0\
            \xA5\xA6\x55\xC0\xE3\x3F\xC9\xF5\xED\x23\x0C\xDE\xFE\xE6\x63\x8D",
    },
    Case {
        name: "d-minimal-32",
        a: Some(D_MINIMAL_32),
        b: None,
        words: "run A.EXE",
        status: 0,
        digest: b"\x5E\xC7\xB3\xD6\xBC\xD9\x70\x0E\xCC\x9B\xC0\x89\x0B\x7C\x9F\x2D\
            \x0C\xB2\x64\x3C\xA9\x2A\x19\x81\x8A\x16\x6F\xC2\x17\x63\xF6\x61",
    },
    Case {
        name: "descriptors-all",
        a: Some(DESCRIPTORS_ALL),
        b: None,
        words: "run A.EXE",
        status: 0,
        digest: b"\x31\x02\xAA\xBA\xD3\xD8\xA7\x42\xEB\xFD\x93\x48\x32\x4A\x4C\xAD\
            \xED\xD4\x45\x01\xE2\x5C\x63\xAA\xB8\x58\x4F\xF7\x5A\x8E\xE6\xD2",
    },
    Case {
        name: "dos-block",
        a: Some(DOS_BLOCK),
        b: None,
        words: "run A.EXE",
        status: 0,
        digest: b"\x00\x3E\xBC\xCC\x98\x38\xB1\x06\x51\x3D\x9E\x58\x38\x0F\xA9\x8B\
            \xFB\x82\xD5\xF7\xDD\x0E\xC1\x31\xB1\xCA\x21\xF0\x7A\x67\x64\xAC",
    },
    Case {
        name: "f-desc-16",
        a: Some(F_DESC_16),
        b: None,
        words: "run A.EXE --trace 40",
        status: 0,
        digest: b"\x7A\xBD\xC7\x0E\xAD\x34\x72\xBA\xBB\x26\x57\x24\x04\x7B\x81\x28\
            \xFA\x80\xAF\xCF\x4A\x83\xA1\x77\x1F\x84\xA9\xE9\x24\xE1\x6C\x36",
    },
    Case {
        name: "f-handles-16",
        a: Some(F_HANDLES_16),
        b: None,
        words: "run A.EXE --trace 5",
        status: 0,
        digest: b"\xFC\x32\x24\xF2\x36\xD3\x19\x50\x50\x13\xCC\xB9\x13\x23\xDF\x0A\
            \x83\xA8\x72\xB4\x5F\x48\xEE\x2C\x04\xB7\x67\xAD\xD0\xE4\xED\x1D",
    },
    Case {
        name: "f-norun-16",
        a: Some(F_NORUN_16),
        b: None,
        words: "run A.EXE --pages 4096 --trace 2000",
        status: 0,
        digest: b"\xEC\x1D\x71\xEF\x7E\x87\x0C\x95\x29\x32\x0C\xD4\x48\x42\x16\xEA\
            \x24\x42\x07\x67\x93\x0E\x7A\x51\xE5\xC8\x9D\x4D\x7D\xC6\xA2\xA2",
    },
    Case {
        name: "f-pages",
        a: Some(F_PAGES),
        b: None,
        words: "run A.EXE --pages 16 --trace 100",
        status: 0,
        digest: b"\x13\x8B\x0D\x42\xAF\x5C\xED\x43\x06\x16\x77\xEE\x45\x43\xB7\x61\
            \x8D\x8E\xA2\x30\x7A\xD8\x3C\xFD\x6D\xB3\xEE\xE3\x09\xF6\x41\x08",
    },
];

pub(super) static TABLE_4: [Case; 15] = [
    Case {
        name: "f-unknown-16",
        a: Some(F_UNKNOWN_16),
        b: None,
        words: "run A.EXE --trace 40",
        status: 0,
        digest: b"\x3A\xF7\xCC\xB6\xDA\x45\x29\xC1\x7F\x02\xF5\xAC\x27\x44\x3B\x8B\
            \x9E\x39\x1D\xD3\x69\x68\x88\xC2\x5C\x36\xBB\x0E\xBD\xEF\x6B\xB3",
    },
    Case {
        name: "flat-block",
        a: Some(FLAT_BLOCK),
        b: None,
        words: "run A.EXE",
        status: 0,
        digest: b"\xFF\x3E\xE7\xD6\x5E\x0F\x6A\xD2\x71\xAD\xCE\x1E\xF8\x4F\xCF\x61\
            \x4F\x8F\x99\x87\xE9\x70\x76\xFA\x32\xEA\x3C\xD6\x65\x97\x9E\x72",
    },
    Case {
        name: "frame-cs-null",
        a: Some(FRAME_CS_NULL),
        b: None,
        words: "run A.EXE",
        status: 1,
        digest: b"\x7B\xA1\x3A\xB4\x44\x14\xC6\xD2\x01\x45\x15\x54\xC3\xF7\x0B\xE4\
            \x9B\x97\xCD\xDF\x83\x59\x19\x07\x7A\xAB\x84\x4C\x2D\xF9\x2D\x54",
    },
    Case {
        name: "frame-flags-all",
        a: Some(FRAME_FLAGS_ALL),
        b: None,
        words: "run A.EXE",
        status: 0,
        digest: b"\x13\x3C\x24\x66\x75\x2C\x10\xDF\x67\x78\xB5\xAC\x97\x00\x83\x95\
            \x85\x3B\xEF\x2D\x61\x80\xA9\x36\x5D\x33\x97\x8B\xF2\x07\x98\xE5",
    },
    Case {
        name: "frame-flags-none",
        a: Some(FRAME_FLAGS_NONE),
        b: None,
        words: "run A.EXE",
        status: 0,
        digest: b"\xA0\xAE\x9E\x1D\x67\xF0\x33\x33\x30\x76\x49\x5B\xF6\xF0\x50\x75\
            \x13\xF7\x0F\xC7\x03\x8B\xE0\x08\xFF\x24\xE1\x69\x41\x5B\xD2\x81",
    },
    Case {
        name: "frame-ss-code",
        a: Some(FRAME_SS_CODE),
        b: None,
        words: "run A.EXE",
        status: 1,
        digest: b"\x3C\x10\xA5\x96\xBD\xE9\xE5\xB4\x70\x5F\x18\x7A\xA3\x47\x68\x1C\
            \x63\x8E\x13\x1F\xD5\x5F\xE9\xC6\x0D\xE6\xEC\x60\x98\xFE\x38\xE4",
    },
    Case {
        name: "frame-ss-other",
        a: Some(FRAME_SS_OTHER),
        b: None,
        words: "run A.EXE",
        status: 0,
        digest: b"\xB0\x2A\xD9\xA5\xD7\x8E\xF0\x08\x95\x8A\x3F\x66\xF5\xB7\x7E\x95\
            \xE9\xF4\x4F\xFA\x3D\xAA\x83\x84\x87\x2B\x23\x0A\x2D\xBD\x03\xF6",
    },
    Case {
        name: "freed-code",
        a: Some(FREED_CODE),
        b: None,
        words: "run A.EXE",
        status: 1,
        digest: b"\xC1\x6F\xF1\xE5\xA1\x3D\x23\x9D\xE9\xAB\x0A\xBA\x61\xEE\x76\xD6\
            \xFA\x91\xE1\x88\x9C\x1B\x58\xBB\xF2\x8E\xC1\xEB\xD3\xED\xC7\xF2",
    },
    Case {
        name: "freed-data",
        a: Some(FREED_DATA),
        b: None,
        words: "run A.EXE",
        status: 1,
        digest: b"\x15\x89\x80\xD6\x76\x2E\x66\xFB\x6E\x23\xE6\x9E\xE5\x99\x73\x04\
            \x81\x6F\x05\xBC\x13\x12\x86\x36\x94\x3F\x7F\x9F\xB4\x79\x46\x17",
    },
    Case {
        name: "freed-stack",
        a: Some(FREED_STACK),
        b: None,
        words: "run A.EXE",
        status: 1,
        digest: b"\x1F\x47\x0F\x6F\xBB\x9E\xEB\xBA\x6D\xB6\x0D\x36\x69\xC4\x0F\x8B\
            \xBE\xBC\xB8\x2B\xE4\x8C\x9A\xF2\x57\xBB\x07\x34\xD2\x01\x83\xF0",
    },
    Case {
        name: "g-back-16",
        a: Some(G_BACK_16),
        b: None,
        words: "run A.EXE --trace 150",
        status: 0,
        digest: b"\x81\xB1\xBE\xC0\xFE\x2C\x34\x82\x17\x13\x76\x7B\xB9\xD7\xE9\xC6\
            \xD1\xC9\x0E\xAB\x49\xF0\x7A\xA7\x0D\x28\x2B\xE8\x3E\x38\x46\xB3",
    },
    Case {
        name: "g-blocks-16",
        a: Some(G_BLOCKS_16),
        b: None,
        words: "run A.EXE --pages 513 --trace 30",
        status: 0,
        digest: b"\x2C\x2A\x6A\x06\x84\xD6\x54\xFF\x5D\x00\x28\xB6\x73\x47\x34\xE4\
            \xB8\x9A\xC9\x08\xFF\x0F\x3B\xD1\x53\x6C\xF0\x19\xAC\x50\xFD\x17",
    },
    Case {
        name: "g-deep-even-16",
        a: Some(G_DEEP_EVEN_16),
        b: None,
        words: "run A.EXE --trace 150",
        status: 1,
        digest: b"\x9A\x69\x90\xF8\x0E\xCB\xA3\x25\x9F\x4B\x75\xC2\x8E\x1C\x9D\x7F\
            \x56\x4C\x37\xD7\x25\x00\x97\x54\x28\x45\xBA\x25\xC2\x42\xE0\x39",
    },
    Case {
        name: "g-info-16",
        a: Some(G_INFO_16),
        b: None,
        words: "run A.EXE --trace 150",
        status: 0,
        digest: b"\xCC\x50\x92\x66\x72\x97\xA2\x7D\x14\xED\x0A\x34\x3C\x3A\xAF\x85\
            \xE7\x5E\x0F\xD5\xDD\x0C\x63\x3B\x6B\x4B\x5F\xFF\x4E\xEF\x87\x7F",
    },
    Case {
        name: "g-many-16",
        a: Some(G_MANY_16),
        b: None,
        words: "run A.EXE --pages 16384 --trace 100",
        status: 0,
        digest: b"\xF1\xE1\xF5\xAF\xC8\x27\x06\x93\xA4\xF9\x59\x14\x2A\xA1\xB6\x9D\
            \xD0\xB4\x22\x4A\x74\x3F\xF4\xFC\xD2\x83\x64\xE4\xFC\x15\xF8\x2B",
    },
];
