/// A case: the clients A.EXE and B.EXE, where there are any, and the words, with a space between each two; the status with which the
/// command must answer, and the SHA-256 of what it must write.
pub(super) struct Case {
    pub(super) name: &'static str,
    pub(super) a: Option<&'static [u8]>,
    pub(super) b: Option<&'static [u8]>,
    pub(super) words: &'static str,
    pub(super) status: u8,
    pub(super) digest: &'static [u8; 32],
}
