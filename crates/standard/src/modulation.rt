ghost use Rattle.std.specs.Prelude.{◌≡◌, ◌/◌, max};
ghost use Rattle.standard.specs.Modulations.{carrier_bits};

// How a carrier's bits become a point.
#[derive(Clone, Copy, Debug, PartialEq, Eq)]
pub enum Modulation {
    Bpsk,
    Qpsk,
    Qam16,
    Qam64,
}

impl Modulation {
    // How many bits a carrier has.
    pub fn bits(self) -> usize
        ensures { result ≡ carrier_bits self }
    {
        match self {
            Modulation::Bpsk => 1,
            Modulation::Qpsk => 2,
            Modulation::Qam16 => 4,
            Modulation::Qam64 => 6,
        }
    }

    // How many bits an axis has: half of the carrier's, but BPSK has one axis.
    pub fn axis_bits(self) -> usize
        ensures { result ≡ max (carrier_bits self / 2) 1 }
    {
        match self {
            Modulation::Bpsk | Modulation::Qpsk => 1,
            Modulation::Qam16 => 2,
            Modulation::Qam64 => 3,
        }
    }
}
