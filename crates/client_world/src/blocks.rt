// Memory blocks.

/// Where a memory block is: its linear address and its pages. Source: DPMI 0.9, INT 31h function 0501h.
#[derive(Clone, Copy, Debug, PartialEq, Eq)]
pub struct BlockRow {
    pub base: u32,
    pub pages: u32,
}
