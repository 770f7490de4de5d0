ghost use Rattle.std.specs.Prelude.{◌≡◌, ◌*◌, ◌≤◌};
ghost use Rattle.standard.specs.Profiles.{Fitting, profile as profiled};
ghost use Rattle.standard.specs.Refusals.{Accepted, Read, capacity as capable};

use crate::order::{Order, Request};
use crate::profile::Profile;
use crate::profiles::profile_of;
use crate::refusal::Refusal;

// The data carriers of a symbol.
const CARRIERS: usize = 192;

// The five bytes of a record that hold a request.
impl From<[u8; 5]> for Request {
    ghost from_gives = { Read };

    fn from([rate, bsid, uiuc, frame, symbols]: [u8; 5]) -> Request {
        Request {
            rate: u32::from(rate),
            bsid: u32::from(bsid),
            uiuc: u32::from(uiuc),
            frame: u32::from(frame),
            symbols: u32::from(symbols),
        }
    }
}

// The one way to an order.
impl TryFrom<Request> for Order {
    type Error = Refusal;

    ghost try_from_gives = { Accepted };

    fn try_from(request: Request) -> Result<Order, Refusal> {
        if request.rate > 6 {
            return Err(Refusal::Rate);
        }
        if request.bsid > 15 || request.uiuc > 15 || request.frame > 15 {
            return Err(Refusal::Identity);
        }
        if request.symbols == 0 || request.symbols > 8 {
            return Err(Refusal::Symbols);
        }
        Ok(Order {
            rate: request.rate as u8,
            bsid: request.bsid as u8,
            uiuc: request.uiuc as u8,
            frame: request.frame as u8,
            symbols: request.symbols as u8,
        })
    }
}

impl Order {
    pub fn profile(self) -> Profile
        ensures value { result ≡ profiled self.rate }
        ensures fits { Fitting result }
    {
        profile_of(self.rate)
    }

    pub fn bsid(self) -> u8
        ensures { result ≡ self.bsid }
    {
        self.bsid
    }

    pub fn uiuc(self) -> u8
        ensures { result ≡ self.uiuc }
    {
        self.uiuc
    }

    pub fn frame(self) -> u8
        ensures { result ≡ self.frame }
    {
        self.frame
    }

    pub fn symbols(self) -> usize
        ensures { result ≡ self.symbols }
    {
        self.symbols as usize
    }

    // How many points the burst has.
    pub fn points(self) -> usize
        ensures { result ≡ 192 * self.symbols }
    {
        CARRIERS * self.symbols()
    }

    // How many data bytes the burst carries: its last byte is the tail.
    pub fn capacity(self) -> usize
        ensures { result ≡ capable self.rate self.symbols }
    {
        self.symbols() * self.profile().message - 1
    }
}
