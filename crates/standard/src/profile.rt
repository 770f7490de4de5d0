// The rate of the inner code: sent bits for each bit of its input.
#[derive(Clone, Copy, Debug, PartialEq, Eq)]
pub enum InnerRate {
    Half,
    TwoThirds,
    ThreeQuarters,
    FiveSixths,
}

// A row of the profile table.
#[derive(Clone, Copy, Debug, PartialEq, Eq)]
pub struct Profile {
    // bits per carrier, a number as in the rules' table; `modulation` names what it stands for
    pub bits: usize,
    // data bytes of a symbol, and bytes after the outer step
    pub message: usize,
    pub block: usize,
    // how many bytes of a block can be corrected
    pub limit: usize,
    pub inner: InnerRate,
}

// A coded bit of a period: an output of the encoder, and the place of its input bit in the period.
#[derive(Clone, Copy, Debug, PartialEq, Eq)]
pub enum Coded {
    X1,
    Y1,
    Y2,
    X3,
    Y4,
    X5,
}
