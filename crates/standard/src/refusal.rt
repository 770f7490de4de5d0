// Why a call refuses. `number` of specs/Refusals.antt gives each its number.
#[derive(Clone, Copy, Debug, PartialEq, Eq)]
pub enum Refusal {
    // the rate is none of the seven
    Rate,
    // the station's, usage's or frame's number has more than four bits
    Identity,
    // not 1 to 8 symbols
    Symbols,
    // more data than the burst carries
    DataLength,
    // not 192 points for each symbol
    PointCount,
    // the output is shorter than the data
    Output,
    // the memory lent is too short
    Memory,
    // a block, counted from 1, that no outer word is near
    Block(u8),
    // a record's mark is none of the program's
    UnknownMark,
    // a record ends before it is whole
    CutShort,
}
