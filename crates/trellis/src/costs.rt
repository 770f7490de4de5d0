ghost use Rattle.std.specs.Prelude.{◌≡◌, ℕ, ◌+◌, ◌*◌, ◌<◌, ◌≤◌, length, ◌≢◌, slice_index};
ghost use Rattle.paths.proofs.CostEnds.{Costed};
ghost use Rattle.paths.proofs.Pushed.{Leasts, Partly, turn};

use crate::ends::best_end;
use crate::trellis::{NO_PATH, Trellis};

// The words of one row of costs.
const ROW_WORDS: usize = 4096;

// One stage of a trellis, and the row of costs before it.
#[derive(Drop)]
struct Stage<'a, T: Trellis> {
    trellis: &'a T,
    k: usize,
    row: &'a [u64],
    ghost early: { k < (T.model trellis.now).stages },
    ghost long: { (T.model trellis.now).states ≤ length row.now },
}

impl<T: Trellis> Stage<'_, T> {
    // Follows one branch, if it is open. That `next` has a place for each state is a clause here and below: the two rows change
    // places at each stage, and a struct for the written one would be made anew.
    fn push(&self, s: usize, bit: bool, next: &mut [u64])
        requires low { s < (T.model self.now.trellis.now).states }
        requires long { (T.model self.now.trellis.now).states ≤ length next.old }
        requires capped { slice_index self.now.row.now s ≤ NO_PATH }
        requires sofar { Partly (T.model self.now.trellis.now) self.now.k self.now.row.now next.old (turn s bit) }
        ensures { Partly (T.model self.now.trellis.now) self.now.k self.now.row.now next.new (turn s bit + 1) }
    {
        if let Some(branch) = self.trellis.branch(self.k, s, bit) {
            let x = self.row[s] + u64::from(branch.cost);
            next[branch.to] = next[branch.to].min(x);
        }
    }

    // Follows both branches of a state; none where no path has reached it.
    fn push_state(&self, s: usize, next: &mut [u64])
        requires low { s < (T.model self.now.trellis.now).states }
        requires long { (T.model self.now.trellis.now).states ≤ length next.old }
        requires sofar { Partly (T.model self.now.trellis.now) self.now.k self.now.row.now next.old (2 * s) }
        ensures { Partly (T.model self.now.trellis.now) self.now.k self.now.row.now next.new (2 * (s + 1)) }
    {
        if self.row[s] < NO_PATH {
            self.push(s, false, next);
            self.push(s, true, next);
        }
    }

    // The next row.
    fn advance(&self, next: &mut [u64])
        requires long { (T.model self.now.trellis.now).states ≤ length next.old }
        requires least { Leasts (T.model self.now.trellis.now) self.now.k self.now.row.now }
        ensures { Leasts (T.model self.now.trellis.now) (self.now.k + 1) next.new }
    {
        let n = self.trellis.states();
        next[..n].fill(NO_PATH);
        for s in 0..n {
            self.push_state(s, next);
        }
    }
}

// All stages; two a turn, so that no row is copied. `Wanted::forward` goes the same way over rows of lanes and writes
// survivors; a trait for both, with what each row holds and two impls, would be longer than the two loops.
fn forward<T: Trellis>(trellis: &T, front: &mut [u64], back: &mut [u64])
    requires front_long { length front.old ≡ ROW_WORDS }
    requires back_long { length back.old ≡ ROW_WORDS }
    requires least { Leasts (T.model trellis.now) 0 front.old }
    ensures { Leasts (T.model trellis.now) (T.model trellis.now).stages front.new }
{
    let n = trellis.stages();
    for pair in 0..n / 2 {
        let even = Stage {
            trellis,
            k: 2 * pair,
            row: front,
        };
        even.advance(back);
        let odd = Stage {
            trellis,
            k: 2 * pair + 1,
            row: back,
        };
        odd.advance(front);
    }
    if n % 2 == 1 {
        let last = Stage {
            trellis,
            k: n - 1,
            row: front,
        };
        last.advance(back);
        front.copy_from_slice(back);
    }
}

fn first_costs(front: &mut [u64], start: usize)
    requires { (length front.old ≡ ROW_WORDS) × (start < ROW_WORDS) }
    ensures here { slice_index front.new start ≡ 0 }
    ensures elsewhere { (t : ℕ) → t < ROW_WORDS → (t ≢ start) → slice_index front.new t ≡ NO_PATH }
{
    front.fill(NO_PATH);
    front[start] = 0;
}

// The search for the cost alone: two rows of costs.
pub(crate) fn search_cost<T: Trellis>(trellis: &T, work: &mut [u64]) -> Option<u32>
    requires { 2 * ROW_WORDS ≤ length work.old }
    ensures { Costed (T.model trellis.now) result }
{
    let (front, rest) = work.split_at_mut(ROW_WORDS);
    let (back, _) = rest.split_at_mut(ROW_WORDS);
    first_costs(front, trellis.start());
    forward(trellis, front, back);
    let end = best_end(trellis, front)?;
    Some(front[end] as u32)
}
