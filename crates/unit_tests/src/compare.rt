// Comparisons answer what differs, and a test returns the answer: an assertion with a message costs ten times as much to prove.

/// The name of a part that isn't as it should be.
pub(crate) fn same(part: &'static str, is_same: bool) -> Result<(), &'static str> {
    if is_same { Ok(()) } else { Err(part) }
}

/// What differs from a row, and the row's number in its table, from 0.
#[derive(Clone, Copy, Debug, Drop)]
pub(crate) struct Differing {
    row: usize,
    part: &'static str,
}

/// The same answer, with the number of the row.
pub(crate) fn in_row(row: usize, compared: Result<(), &'static str>) -> Result<(), Differing> {
    match compared {
        Ok(()) => Ok(()),
        Err(part) => Err(Differing { row, part }),
    }
}
