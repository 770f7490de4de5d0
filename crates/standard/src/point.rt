// One carrier of a symbol, in counts: 256 to a unit.
#[derive(Clone, Copy, Debug, PartialEq, Eq)]
pub struct Point {
    pub i: i16,
    pub q: i16,
}
