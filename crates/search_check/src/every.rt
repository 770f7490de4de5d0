ghost use Rattle.std.specs.Prelude.{◌<◌};

use std::cmp::Ordering;
use trellis::Trellis;

// The most stages of a path that is looked at.
pub const STAGES: usize = 8;

// The places of such a path.
const PLACES: usize = 9;

// The bit of stage k.
fn bit(bits: u32, k: usize) -> bool
    requires { k < 8 }
{
    bits >> k as u32 & 1 == 1
}

// A path that comes to an end. They are compared by the fields in turn, as the search is to: the cheaper one is less,
// of the same cost that on the lower state at the last place where they differ, and then that with bit 0 at the last bit
// that differs.
#[derive(Clone, Copy, PartialEq, Eq, PartialOrd, Ord)]
pub struct Walk {
    pub cost: u32,
    // the last place first
    states: [usize; PLACES],
    // the first stage lowest
    bits: u32,
}

impl Walk {
    // The path with these bits, if it is open and comes to an end.
    fn follow<T: Trellis>(trellis: &T, bits: u32) -> Option<Walk> {
        let mut state = trellis.start();
        let mut cost = 0u32;
        let mut states = [0; PLACES];
        states[PLACES - 1] = state;
        for k in 0..trellis.stages() {
            if k + 1 >= PLACES || state >= trellis.states() {
                return None;
            }
            let branch = trellis.branch(k, state, bit(bits, k))?;
            state = branch.to;
            cost = cost.saturating_add(branch.cost);
            states[PLACES - 2 - k] = state;
        }
        if state < trellis.states() && trellis.is_end(state) {
            Some(Walk { cost, states, bits })
        } else {
            None
        }
    }

    // Writes the bits of as many stages as there is room for.
    pub(crate) fn write(&self, path: &mut [bool]) {
        for (k, place) in path.iter_mut().take(STAGES).enumerate() {
            *place = bit(self.bits, k);
        }
    }
}

// The least of all paths, and how many others cost the same.
#[derive(Clone, Copy)]
pub struct Best {
    pub walk: Walk,
    pub ties: u32,
}

impl Best {
    // The best, with one path more.
    fn or(self, walk: Walk) -> Best {
        let ties = match walk.cost.cmp(&self.walk.cost) {
            Ordering::Less => 0,
            Ordering::Equal => self.ties.saturating_add(1),
            Ordering::Greater => self.ties,
        };
        Best {
            walk: self.walk.min(walk),
            ties,
        }
    }

    // Every path of the trellis, one after the other.
    pub(crate) fn of_all<T: Trellis>(trellis: &T) -> Option<Best> {
        let mut best: Option<Best> = None;
        // bits past the last stage would make no path of their own
        for bits in 0..1u32 << trellis.stages().min(STAGES) as u32 {
            if let Some(walk) = Walk::follow(trellis, bits) {
                best = Some(match best {
                    None => Best { walk, ties: 0 },
                    Some(b) => b.or(walk),
                });
            }
        }
        best
    }
}
