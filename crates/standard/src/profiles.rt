ghost use Rattle.std.specs.Prelude.{◌≡◌, ◌≤◌};
ghost use Rattle.standard.specs.Modulations.{carrier_bits};
ghost use Rattle.standard.specs.Profiles.{Modulation as AreCarrierBits, period as periodic, profile as profiled, punctured};

use crate::modulation::Modulation;
use crate::profile::{Coded, InnerRate, Profile};
use crate::shape::Shape;

const PROFILES: [Profile; 7] = [
    Profile {
        bits: 1,
        message: 12,
        block: 12,
        limit: 0,
        inner: InnerRate::Half,
    },
    Profile {
        bits: 2,
        message: 24,
        block: 32,
        limit: 4,
        inner: InnerRate::TwoThirds,
    },
    Profile {
        bits: 2,
        message: 36,
        block: 40,
        limit: 2,
        inner: InnerRate::FiveSixths,
    },
    Profile {
        bits: 4,
        message: 48,
        block: 64,
        limit: 8,
        inner: InnerRate::TwoThirds,
    },
    Profile {
        bits: 4,
        message: 72,
        block: 80,
        limit: 4,
        inner: InnerRate::FiveSixths,
    },
    Profile {
        bits: 6,
        message: 96,
        block: 108,
        limit: 6,
        inner: InnerRate::ThreeQuarters,
    },
    Profile {
        bits: 6,
        message: 108,
        block: 120,
        limit: 6,
        inner: InnerRate::FiveSixths,
    },
];

// The coded bits of a period, in the order sent.
const HALF: [Coded; 2] = [Coded::X1, Coded::Y1];

const TWO_THIRDS: [Coded; 3] = [Coded::X1, Coded::Y1, Coded::Y2];

const THREE_QUARTERS: [Coded; 4] = [Coded::X1, Coded::Y1, Coded::Y2, Coded::X3];

const FIVE_SIXTHS: [Coded; 6] = [
    Coded::X1,
    Coded::Y1,
    Coded::Y2,
    Coded::X3,
    Coded::Y4,
    Coded::X5,
];

pub(crate) fn profile_of(rate: u8) -> Profile
    requires { rate ≤ 6 }
    ensures { result ≡ profiled rate }
{
    PROFILES[rate as usize]
}

impl Profile {
    pub fn modulation(self) -> Modulation
        requires { AreCarrierBits self.bits }
        ensures { carrier_bits result ≡ self.bits }
    {
        match self.bits {
            1 => Modulation::Bpsk,
            2 => Modulation::Qpsk,
            4 => Modulation::Qam16,
            // what is asked leaves 6 alone
            _ => Modulation::Qam64,
        }
    }

    // The shape of its blocks.
    pub fn shape(self) -> Shape
        requires short { self.message ≤ 239 }
        requires few { self.limit ≤ 8 }
        ensures size { result.size ≡ self.message }
        ensures limit { result.limit ≡ self.limit }
    {
        Shape {
            size: self.message,
            limit: self.limit,
        }
    }
}

impl InnerRate {
    pub fn puncturing(self) -> &'static [Coded]
        ensures { result.now ≡ punctured self }
    {
        match self {
            InnerRate::Half => &HALF,
            InnerRate::TwoThirds => &TWO_THIRDS,
            InnerRate::ThreeQuarters => &THREE_QUARTERS,
            InnerRate::FiveSixths => &FIVE_SIXTHS,
        }
    }

    // How many input bits a period has.
    pub fn period(self) -> usize
        ensures { result ≡ periodic self }
    {
        match self {
            InnerRate::Half => 1,
            InnerRate::TwoThirds => 2,
            InnerRate::ThreeQuarters => 3,
            InnerRate::FiveSixths => 5,
        }
    }
}
