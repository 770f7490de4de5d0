// What decoding tells beside the data.
#[derive(Clone, Copy, Debug, PartialEq, Eq)]
pub struct Report {
    // in how many coded bits the nearest inner word differs from what was heard
    pub wrong_bits: u32,
    // in how many bytes the outer words taken differ from the inner word's, parity bytes included
    pub corrected_bytes: u32,
}
