// Segment descriptors of the client.
ghost use Rattle.std.specs.Prelude.{◌≡◌, ◌≢◌, ◌<◌, ◌^◌, ℕ, true, None, slice_set};
ghost use Rattle.client_world.specs.{declared.host_frames.TheConstants.{DESCRIPTORS}, Descriptor.{IsInside, byte_limit, expands_down}};
ghost use Rattle.client_world.specs.{Descriptor.{is_code, is_inside, is_writable, plain}, Selector.{Row, FitsRow, row_at_index}};
ghost use Rattle.client_world.specs.{Soundness.{IsSound, IsOfDosBlock, IsPlainRow, IsClientsIndex}, World.{World}};

/// What a segment holds. Source: 80386 Programmer's Reference Manual, ch. 6, "Type Checking", table 6-1.
#[derive(Clone, Copy, Debug, PartialEq, Eq)]
pub enum Kind {
    /// Data: whether it may be written, and whether it expands down.
    Data { writable: bool, down: bool },
    /// Readable code that doesn't conform.
    Code,
}

impl Kind {
    /// Data that may be written, in a segment that doesn't expand down.
    pub const WRITABLE_DATA: Kind = Kind::Data {
        writable: true,
        down: false,
    };

    /// Whether the segment holds code. Source: 80386 Programmer's Reference Manual, ch. 6, "Type Checking", table 6-1.
    pub fn is_code(self) -> bool
        ensures { result ≡ is_code self }
    {
        match self {
            Kind::Data { .. } => false,
            Kind::Code => true,
        }
    }

    /// Whether the segment holds data that may be written. Source: 80386 Programmer's Reference Manual, ch. 6, "Type Checking", table 6-1.
    pub fn is_writable(self) -> bool
        ensures { result ≡ is_writable self }
    {
        match self {
            Kind::Data { writable, .. } => writable,
            Kind::Code => false,
        }
    }

    /// Whether the segment holds data and expands down. Source: 80386 Programmer's Reference Manual, ch. 6, "Type Checking", table 6-1.
    pub fn expands_down(self) -> bool
        ensures { result ≡ expands_down self }
    {
        match self {
            Kind::Data { down, .. } => down,
            Kind::Code => false,
        }
    }
}

/// A segment descriptor, with DPL 3 and its Accessed bit set.
/// Source: 80386 Programmer's Reference Manual, ch. 5, "Descriptors".
#[derive(Clone, Copy, Debug, PartialEq, Eq)]
pub struct Desc {
    /// The linear address of the segment's first byte.
    pub base: u32,
    /// The limit field, of 20 bits.
    pub limit: u32,
    /// G: the limit counts units of 4096 bytes.
    pub gran: bool,
    /// D of code, B of data: the segment is one of 32 bits.
    pub size: bool,
    /// AVL: the client's own bit.
    pub avl: bool,
    /// P: the segment is present.
    pub present: bool,
    pub kind: Kind,
}

// The limit's unit where G is set, in bytes.
const LIMIT_UNIT: u32 = 0x1000;

// The greatest offset of a segment of 16 bits, and of one of 32.
const LAST_OF_16_BITS: u32 = 0xFFFF;

const LAST_OF_32_BITS: u32 = 0xFFFF_FFFF;

impl Desc {
    /// A descriptor that is present, with G and AVL clear, so that the limit is the offset of the last byte; its size is D of code and B of
    /// data. Source: 80386 Programmer's Reference Manual, ch. 5, "Descriptors".
    pub fn plain(kind: Kind, base: u32, limit: u32, size: bool) -> Desc
        ensures { result ≡ plain kind base limit size }
    {
        Desc {
            base,
            limit,
            gran: false,
            size,
            avl: false,
            present: true,
            kind,
        }
    }

    /// The last byte that the limit names. Source: 80386 Programmer's Reference Manual, ch. 6, "Limit Checking".
    pub fn byte_limit(&self) -> u32
        requires { self.now.limit < 2 ^ 20 }
        ensures { result ≡ byte_limit self.now }
    {
        if self.gran {
            self.limit * LIMIT_UNIT + (LIMIT_UNIT - 1)
        } else {
            self.limit
        }
    }

    /// Whether n bytes from an offset on, at least one, lie inside the segment.
    /// Source: 80386 Programmer's Reference Manual, ch. 6, "Limit Checking".
    pub fn is_inside(&self, offset: u32, n: u32) -> bool
        ensures { result ≡ is_inside self.now offset n }
    {
        // The sums of two numbers of 32 bits don't fit 32 bits, nor does a limit that was never checked.
        let limit = if self.gran {
            u64::from(self.limit) * u64::from(LIMIT_UNIT) + u64::from(LIMIT_UNIT - 1)
        } else {
            u64::from(self.limit)
        };
        let end = u64::from(offset) + u64::from(n);
        if self.kind.expands_down() {
            let last = if self.size {
                LAST_OF_32_BITS
            } else {
                LAST_OF_16_BITS
            };
            limit < u64::from(offset) && end <= u64::from(last) + 1
        } else {
            end <= limit + 1 && end <= u64::from(LAST_OF_32_BITS) + 1
        }
    }
}

/// A run that isn't empty is inside exactly where each of its bytes is.
pub fn a_run_inside_is_inside_at_each_byte()
    ensures each { (d : Desc) (offset n : ℕ) → 0 < n →
        is_inside d offset n ≡ true → IsInside d offset n }
    ensures whole { (d : Desc) (offset n : ℕ) → 0 < n →
        IsInside d offset n → is_inside d offset n ≡ true }
{}

/// Who made a descriptor, which decides which services may change or free it. Source: own.
#[derive(Clone, Copy, Debug, PartialEq, Eq)]
pub enum Origin {
    /// INT 31h function 0000h or 000Ah.
    Own,
    /// INT 31h function 000Dh.
    Low,
    /// The entry: CS, SS and DS.
    Entry,
    /// The entry: the program segment prefix and the environment.
    Psp,
    /// INT 31h function 0002h, for this real segment.
    Segment(u16),
    /// INT 31h function 0100h or 0102h, for the DOS block at this segment.
    Dos(u16),
    /// The host itself.
    Host,
}

/// A descriptor of the client may be set or freed at an index that isn't the host's: a world that is sound stays sound.
pub fn a_plain_descriptor_keeps_a_world_sound()
    ensures { (w : World) (index : ℕ) (row : Row) → IsSound w → w.width ≢ None → index < DESCRIPTORS → FitsRow row → IsPlainRow row →
        ¬ IsOfDosBlock (row_at_index w.descriptors index) → IsClientsIndex index →
        IsSound (record w { descriptors = slice_set w.descriptors index row }) }
{}
