ghost use Rattle.std.specs.Prelude.{◌≤◌};

// The most bytes that the blocks of a burst have.
pub const BLOCK_BYTES: usize = 960;

// What a caller asks for, as raw numbers: nothing is known of them.
#[derive(Clone, Copy, Debug, PartialEq, Eq)]
pub struct Request {
    // the row of the profile table
    pub rate: u32,
    // the low four bits of the base station's identifier
    pub bsid: u32,
    // the uplink interval usage code
    pub uiuc: u32,
    // the low four bits of the frame number
    pub frame: u32,
    pub symbols: u32,
}

// An accepted request. Its bounds hold for as long as it exists. The rate is the number that the rules give it: an
// enum of the seven would only be turned back into its row of the profile table.
#[derive(Clone, Copy, Debug, PartialEq, Eq)]
pub struct Order {
    pub(crate) rate: u8,
    pub(crate) bsid: u8,
    pub(crate) uiuc: u8,
    pub(crate) frame: u8,
    pub(crate) symbols: u8,
    ghost known: { rate ≤ 6 },
    ghost nibbles: { (bsid ≤ 15) × (uiuc ≤ 15) × (frame ≤ 15) },
    ghost some: { (1 ≤ symbols) × (symbols ≤ 8) },
}
