ghost use Rattle.std.specs.Prelude.{◌≡◌, ◌<◌, false, length, is_ok, IfOk};
ghost use Rattle.paths.specs.Answers.{Found};
ghost use Rattle.standard.specs.Refusals.{first, refused};
ghost use Rattle.trellis.specs.Search.{search_rows};

use crate::costs::search_cost;
use crate::survivors::Wanted;
use crate::trellis::Trellis;
use standard::refusal::Refusal;

// The words of memory that a search is lent at the least.
pub const WORK_WORDS: usize = 8192;

// The bits of the place for the path: one for each stage of the longest trellis.
pub const PATH_BITS: usize = 7680;

// The least cost of an open path from the start to an end, or none where there is no such path. Where the trellis wants
// the path, it is written to `path`: of the paths of that cost the one that is on the lower state at the last place
// where the states differ, then has bit 0 at the last bit that differs. A refusal changes nothing, and what `work` held
// before does not matter.
pub fn search<T: Trellis>(
    trellis: &T,
    work: &mut [u64],
    path: &mut [bool; PATH_BITS],
) -> Result<Option<u32>, Refusal>
    ensures answer { refused result ≡ first (search_rows (length work.old)) }
    ensures work_kept { is_ok result ≡ false → work.new ≡ work.old }
    ensures path_kept { is_ok result ≡ false → path.new ≡ path.old }
    ensures found { IfOk result (λ x. Found (T.model trellis.now) path.old path.new x) }
{
    if work.len() < WORK_WORDS {
        return Err(Refusal::Memory);
    }
    if trellis.wants_path() {
        Ok(Wanted { trellis }.search(work, path))
    } else {
        Ok(search_cost(trellis, work))
    }
}
