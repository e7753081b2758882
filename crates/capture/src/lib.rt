// Frames in a raw capture of the line: definitions and laws. They are found by `capture_find`, and put into records by `capture_records`.
#![tactic(auto)]

// A place in a capture: an octet, and a bit in it, 0 the high one. So no length of a capture is too large a number.
#[derive(Clone, Copy)]
pub struct Place {
    pub octet: usize,
    pub bit: usize,
}
