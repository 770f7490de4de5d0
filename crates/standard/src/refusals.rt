ghost use Rattle.standard.specs.Refusals.{number as numbered};
ghost use Rattle.std.specs.Prelude.{◌≡◌};

use crate::refusal::Refusal;

impl Refusal {
    // The number that a maker sees; by name, since `u8::from` would not say which number.
    pub fn number(self) -> u8
        ensures { result ≡ numbered self }
    {
        match self {
            Refusal::Rate => 1,
            Refusal::Identity => 2,
            Refusal::Symbols => 3,
            Refusal::DataLength => 4,
            Refusal::PointCount => 5,
            Refusal::Output => 6,
            Refusal::Memory => 7,
            Refusal::Block(_) => 8,
            Refusal::UnknownMark => 19,
            Refusal::CutShort => 20,
        }
    }
}
