// Code bytes as words.
ghost use Rattle.std.specs.Prelude.{◌≡◌};

/// The 15 bytes that an instruction may have, as two words, least byte first: bytes 0 to 7, and bytes 7 to 14. Source: own.
#[derive(Clone, Copy, Debug, PartialEq, Eq)]
pub struct CodeWords {
    pub low: u64,
    pub high: u64,
}

impl CodeWords {
    ghost use Rattle.client_world.specs.CodeWords.{code_bytes};

    /// The bytes, from the first on. Source: own.
    #[tactic(auto, unfolding(crate::specs::CodeWords::code_bytes))]
    pub fn bytes(self) -> [u8; 15]
        ensures { result ≡ code_bytes self }
    {
        let [b0, b1, b2, b3, b4, b5, b6, b7] = self.low.to_le_bytes();
        let [_, b8, b9, b10, b11, b12, b13, b14] = self.high.to_le_bytes();
        [
            b0, b1, b2, b3, b4, b5, b6, b7, b8, b9, b10, b11, b12, b13, b14,
        ]
    }
}
