//! Frames: the functions at an address, and their places in source files.

/// A place in a source file.
#[derive(Clone, Copy, Debug, PartialEq, Eq)]
pub struct Place {
    /// The number of the file in the line program of the unit, if one is given.
    pub file: Option<u64>,
    /// 0 if it is not known.
    pub line: u64,
    /// 0 if it is not known.
    pub column: u64,
}

/// A function that has an address, and where in it the address is.
#[derive(Clone, Copy, Debug, PartialEq, Eq)]
pub struct Frame {
    /// The number of the function's entry. None if only the row of the address is known.
    pub function: Option<usize>,
    /// The place of the address, or of the call of the function inlined here that has it.
    pub place: Option<Place>,
}
