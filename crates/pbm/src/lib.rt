// Portable bitmaps of kind P4: a bitmap written as one, with each line as often as the machine prints it, and one read as a bitmap. Here is what
// reading answers; `specs` says what is written and read, and `proofs` that what is written reads back.
#![tactic(auto)]

// Why a file is not read.
#[derive(Clone, Copy, PartialEq, Eq)]
pub enum PbmFault {
    // It does not begin with `P4` and a blank or a comment.
    NotP4,
    // The width or the height is missing or not in decimal, or no blank stands behind the height.
    HeaderUnreadable,
    WidthNot1726,
    // Odd, 0, or more than a page has.
    LinesNotAllowed,
    RowsMissing,
    OutputTooShort,
}

// Width, height, and the place where the rows begin.
#[derive(Clone, Copy)]
pub struct Sizes {
    pub width: usize,
    pub lines: usize,
    pub rows: usize,
}
