// Why nothing was read.

/// Why nothing was read: the bytes end too early, or no encoding begins so.
#[derive(Clone, Copy, Debug, PartialEq, Eq)]
pub enum Stop {
    More,
    Invalid,
}
