use interleaver::Interleaver;
use standard::modulation::Modulation;
use standard::order::Request;
use standard::profile::InnerRate;
use standard::shape::Shape;

// What the example asks for.
pub const BSID: u8 = 1;

pub const UIUC: u8 = 7;

pub const FRAME: u8 = 1;

pub const REQUEST: Request = Request {
    rate: 2,
    bsid: BSID as u32,
    uiuc: UIUC as u32,
    frame: FRAME as u32,
    symbols: 1,
};

// Its data, which fill the symbol but for the tail.
pub const DATA_BYTES: usize = 35;

pub const DATA: [u8; DATA_BYTES] = [
    0x45, 0x29, 0xC4, 0x79, 0xAD, 0x0F, 0x55, 0x28, 0xAD, 0x87, 0xB5, 0x76, 0x1A, 0x9C, 0x80, 0x50,
    0x45, 0x1B, 0x9F, 0xD9, 0x2A, 0x88, 0x95, 0xEB, 0xAE, 0xB5, 0x2E, 0x03, 0x4F, 0x09, 0x14, 0x69,
    0x58, 0x0A, 0x5D,
];

// Its block: the data with the tail, what the outer code makes of it, and how many wrong bytes that is to bear.
pub const MESSAGE_BYTES: usize = 36;

pub const BLOCK_BYTES: usize = 40;

pub const SHAPE: Shape = Shape {
    size: MESSAGE_BYTES,
    limit: 2,
};

// Its inner code, how often that goes through the puncturing table, and the coded bits.
pub const INNER: InnerRate = InnerRate::FiveSixths;

pub const PERIODS: usize = 64;

pub const SYMBOL_BITS: usize = 384;

pub const SYMBOL_BYTES: usize = 48;

// Its carriers: QPSK on all sixteen subchannels.
pub const INTERLEAVER: Interleaver = Interleaver {
    subchannels: 16,
    modulation: Modulation::Qpsk,
};

pub const POINTS: usize = 192;
