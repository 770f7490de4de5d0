use standard::order::Request;
use standard::refusal::Refusal;

// A whole record, its place being that of its first byte in the input.
#[derive(Clone, Copy)]
pub enum Record<'a> {
    // a burst to send
    Bu {
        place: usize,
        request: Request,
        payload: &'a [u8],
    },
}

// A record's mark, as it is printed.
#[derive(Clone, Copy, Debug, PartialEq, Eq)]
pub enum Mark {
    Bu,
    Unknown,
}

// Why no whole record stands at a place.
#[derive(Clone, Copy, Debug, PartialEq, Eq)]
pub struct Fault {
    pub place: usize,
    pub mark: Mark,
    pub refusal: Refusal,
}
