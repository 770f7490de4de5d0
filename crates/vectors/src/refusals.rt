use crate::example::{DATA, POINTS, REQUEST};
use standard::order::Request;
use standard::point::Point;

// What every point is before a call: no point of a burst is this one.
const MARKED: Point = Point { i: 5, q: 5 };

// A call of the encoder.
struct Case {
    name: &'static str,
    request: Request,
    payload: &'static [u8],
    // how many points it has room for
    count: usize,
}

const EXAMPLE: Case = Case {
    name: "example",
    request: REQUEST,
    payload: &DATA,
    count: POINTS,
};

// The example with one thing wrong.
const CASES: [Case; 7] = [
    Case {
        name: "rate 7",
        request: Request { rate: 7, ..REQUEST },
        ..EXAMPLE
    },
    Case {
        name: "bsid 16",
        request: Request {
            bsid: 16,
            ..REQUEST
        },
        ..EXAMPLE
    },
    Case {
        name: "0 symbols",
        request: Request {
            symbols: 0,
            ..REQUEST
        },
        ..EXAMPLE
    },
    Case {
        name: "9 symbols",
        request: Request {
            symbols: 9,
            ..REQUEST
        },
        ..EXAMPLE
    },
    Case {
        name: "36 bytes",
        payload: &[0; 36],
        ..EXAMPLE
    },
    Case {
        name: "191 points",
        count: 191,
        ..EXAMPLE
    },
    Case {
        name: "193 points",
        count: 193,
        ..EXAMPLE
    },
];

impl Case {
    // Prints the answer, 0 where the request is accepted, and what became of the points.
    fn show(&self, rt: &HostRuntime) -> anyhow::Result<()> {
        let name = self.name;
        let mut points = vec![in rt.alloc(); MARKED; self.count]?;
        let number = coder::encode(self.request, self.payload, &mut points)
            .err()
            .map_or(0, |refusal| refusal.number());
        let after = if points.iter().all(|point| *point == MARKED) {
            "kept"
        } else {
            "changed"
        };
        println!(rt; "{name}: {number}, {after}")?;
        Ok(())
    }
}

// Prints the answers to the example with one thing wrong.
pub(crate) fn show(rt: &HostRuntime) -> anyhow::Result<()> {
    println!(rt; "refusals")?;
    for case in &CASES {
        case.show(rt)?;
    }
    Ok(())
}
