//! The receiver of the inner code: the nearest inner word to what was heard.
#![tactic(auto)]

ghost use Rattle.std.specs.Prelude.{◌≡◌, ◌+◌, ◌*◌, ◌≤◌, false, length, is_ok, IfOk};
ghost use Rattle.inner_words.specs.InnerWords.{Nearest, wrong as wrongs};
ghost use Rattle.paths.specs.Answers.{Kept, path_of};
ghost use Rattle.standard.specs.Profiles.{period as periodic};
ghost use Rattle.standard.specs.Refusals.{first, refused};
ghost use Rattle.trellis.specs.Search.{search_rows};
ghost use Rattle.words.specs.Words.{flags};

mod costs;
mod kinds;
mod receive_trellis;

use crate::kinds::fill_kinds;
use crate::receive_trellis::ReceiveTrellis;
use standard::profile::InnerRate;
use standard::refusal::Refusal;
use trellis::{PATH_BITS, search};

// The bits whose inner word is the nearest to what was heard go to `path`; the answer is in how many coded bits it
// differs. Of several as near, it has 0 at the last bit where they differ. What `path` holds past them is left as it
// is, and a refusal changes nothing.
pub fn nearest(
    rate: InnerRate,
    periods: usize,
    heard: &[bool],
    work: &mut [u64],
    path: &mut [bool; PATH_BITS],
) -> Result<u32, Refusal>
    requires short { periodic rate * periods ≤ 7680 }
    requires held { (periodic rate + 1) * periods ≤ length heard.now }
    ensures answer { refused result ≡ first (search_rows (length work.old)) }
    ensures work_kept { is_ok result ≡ false → work.new ≡ work.old }
    ensures path_kept { is_ok result ≡ false → path.new ≡ path.old }
    ensures nearest { IfOk result (λ x. Nearest (periodic rate) periods (flags heard.now) (path_of path.new)) }
    ensures count { IfOk result (λ x. x ≡ wrongs (periodic rate) periods (path_of path.new) (flags heard.now)) }
    ensures past { Kept (periodic rate * periods) path.old path.new }
{
    // a fixed array: the calls have no heap
    let mut rows = [0; PATH_BITS];
    fill_kinds(rate, periods, heard, &mut rows);
    let costs = costs::costs();
    let period = rate.period();
    let trellis = ReceiveTrellis {
        period,
        heard,
        rows: &rows[..period * periods],
        costs: &costs,
    };
    let Some(wrong) = search(&trellis, work, path)? else {
        unreachable()
    };
    Ok(wrong)
}
