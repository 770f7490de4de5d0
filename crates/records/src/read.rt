ghost use Rattle.records.specs.Records.{Reads};

use crate::record::{Fault, Mark, Record};
use standard::order::Request;
use standard::refusal::Refusal;

impl<'a> Record<'a> {
    // The record that begins at a place: `rest` is the input from there on.
    pub fn read(place: usize, rest: &'a [u8]) -> Result<Record<'a>, Fault>
        ensures { Reads place rest.now result }
    {
        let fault = |mark, refusal| {
            Err(Fault {
                place,
                mark,
                refusal,
            })
        };
        match rest {
            [
                b'B',
                b'U',
                rate,
                bsid,
                uiuc,
                frame,
                symbols,
                high,
                low,
                tail @ ..,
            ] => {
                let long = usize::from(u16::from_be_bytes([*high, *low]));
                let Some(payload) = tail.get(..long) else {
                    return fault(Mark::Bu, Refusal::CutShort);
                };
                Ok(Record::Bu {
                    place,
                    request: Request::from([*rate, *bsid, *uiuc, *frame, *symbols]),
                    payload,
                })
            }
            [b'B', b'U', ..] => fault(Mark::Bu, Refusal::CutShort),
            [_, _, ..] => fault(Mark::Unknown, Refusal::UnknownMark),
            _ => fault(Mark::Unknown, Refusal::CutShort),
        }
    }
}
