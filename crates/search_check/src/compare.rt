use crate::every::{Best, STAGES};
use std::array;
use trellis::{PATH_BITS, Trellis, search};

#[derive(Clone, Copy)]
pub struct Outcome {
    pub same: bool,
    pub found: bool,
    // whether several paths have the least cost
    pub tied: bool,
    pub wanted: bool,
}

// Searches, and looks at every path: the cost must be the same, and the place for the path what it should be.
pub(crate) fn compare<T: Trellis>(trellis: &T, work: &mut [u64]) -> Outcome {
    // what the place for the path holds before the search
    let mut path: [bool; PATH_BITS] = array::from_fn(|j| j % 3 == 0);
    let mut expected = path;
    let answer = search(trellis, work, &mut path);
    let best = Best::of_all(trellis);
    if let Some(b) = best {
        if trellis.wants_path() {
            b.walk.write(&mut expected[..trellis.stages().min(STAGES)]);
        }
    }
    Outcome {
        same: answer.is_ok_and(|cost| cost == best.map(|b| b.walk.cost)) && path == expected,
        found: best.is_some(),
        tied: best.is_some_and(|b| b.ties > 0),
        wanted: trellis.wants_path(),
    }
}
