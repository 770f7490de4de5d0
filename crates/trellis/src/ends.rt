ghost use Rattle.std.specs.Prelude.{◌≤◌, length};
ghost use Rattle.paths.proofs.Rows.{End};

use crate::trellis::{NO_PATH, Trellis};

// The end of the least cost in a row of costs, and of several the lowest; none where no path has come to an end.
pub(crate) fn best_end<T: Trellis>(trellis: &T, row: &[u64]) -> Option<usize>
    requires { (T.model trellis.now).states ≤ length row.now }
    ensures { End (T.model trellis.now) row.now (T.model trellis.now).states result }
{
    // beside the option, so that one comparison serves both "no path" and "not less"
    let mut least = NO_PATH;
    let mut best = None;
    for (t, cost) in row[..trellis.states()].iter().enumerate() {
        if *cost < least && trellis.is_end(t) {
            least = *cost;
            best = Some(t);
        }
    }
    best
}
