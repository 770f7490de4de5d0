ghost use Rattle.std.specs.Prelude.{◌≡◌, ℕ, ◌+◌, ◌*◌, ◌/◌, ◌<◌, ◌≤◌, true, false, length, IfSome, slice_index, slice_index_or};
ghost use Rattle.std.specs.Option.{option_map};
ghost use Rattle.paths.proofs.Lanes.{values};
ghost use Rattle.paths.proofs.Rows.{Alike, Below, Candidates, Capped, charge as charging, Reached, Room, Trail, into, trace, via};
ghost use Rattle.paths.specs.Answers.{Found, Kept};

use crate::ends::best_end;
use crate::lane::{LANES, Lane, Row, select};
use crate::trellis::{Entry, NO_PATH, Trellis};

// One stage of a trellis whose path is wanted, and the row before it.
#[derive(Drop)]
struct Stage<'a, T: Trellis, L: Lane> {
    trellis: &'a T,
    k: usize,
    // a slice, since nothing bounds the size in memory of a generic array behind a field
    row: &'a [L],
    ghost full: { length row.now ≡ 64 },
    ghost on: { (T.model trellis.now).wanted ≡ true },
    ghost early: { k < (T.model trellis.now).stages },
    ghost capped: { Capped (values L.Lane.value row.now) },
    ghost room: { Room (T.model trellis.now) k (values L.Lane.value row.now) L.Lane.top },
}

impl<T: Trellis, L: Lane> Stage<'_, T, L> {
    // An entry of a lane; a lane that is no state has none.
    fn entry(&self, t: usize, second: bool) -> Option<Entry>
        ensures { option_map (λ e. (e.from, e.bit, e.cost)) result ≡ into (T.model self.now.trellis.now) self.now.k t second }
    {
        if t < self.trellis.states() {
            self.trellis.entry(self.k, t, second)
        } else {
            None
        }
    }

    // The predecessor by an entry of a lane, where the trellis tells it.
    fn predecessor(&self, t: usize, second: bool) -> Option<usize>
        ensures within { IfSome result (λ from. from < LANES) }
        ensures named { IfSome result (λ from. IfSome (into (T.model self.now.trellis.now) self.now.k t second) (λ e. from ≡ e.0)) }
    {
        if t < self.trellis.states() {
            self.trellis.predecessor(self.k, t, second)
        } else {
            None
        }
    }

    // What an entry of a lane charges; past any path where there is none.
    fn charge(&self, t: usize, second: bool) -> L
        ensures { L.Lane.value result ≡ charging (into (T.model self.now.trellis.now) self.now.k t second) }
    {
        match self.entry(t, second) {
            None => L::none(),
            Some(e) => L::of(e.cost),
        }
    }

    // The cost of the best path by one entry of a lane, from its predecessor. The row is read and the sum made whether or not
    // the entry is open, so that all lanes go into vectors.
    fn through(&self, from: usize, t: usize, second: bool) -> L
        requires within { from < LANES }
        requires named { IfSome (into (T.model self.now.trellis.now) self.now.k t second) (λ e. from ≡ e.0) }
        ensures { Alike (L.Lane.value result) (via (values L.Lane.value self.now.row.now) (into (T.model self.now.trellis.now) self.now.k t second)) }
    {
        self.row[from].plus(self.charge(t, second))
    }

    // The same where only the entry tells the predecessor.
    fn by_entry(&self, t: usize, second: bool) -> L
        ensures { Alike (L.Lane.value result) (via (values L.Lane.value self.now.row.now) (into (T.model self.now.trellis.now) self.now.k t second)) }
    {
        match self.entry(t, second) {
            None => L::none(),
            Some(e) => self.row[e.from].plus(L::of(e.cost)),
        }
    }

    fn candidate(&self, t: usize, second: bool) -> L
        ensures { Alike (L.Lane.value result) (via (values L.Lane.value self.now.row.now) (into (T.model self.now.trellis.now) self.now.k t second)) }
    {
        match self.predecessor(t, second) {
            None => self.by_entry(t, second),
            Some(from) => self.through(from, t, second),
        }
    }

    // The candidates of two neighbouring lanes: all four are made before any is written, so that no write comes
    // between the reads.
    fn pair(&self, h: usize, a: &mut Row<L>, b: &mut Row<L>)
        requires low { h < LANES / 2 }
        requires first { Candidates (T.model self.now.trellis.now) self.now.k false (values L.Lane.value self.now.row.now) (values L.Lane.value a.old) (2 * h) }
        requires second { Candidates (T.model self.now.trellis.now) self.now.k true (values L.Lane.value self.now.row.now) (values L.Lane.value b.old) (2 * h) }
        ensures first { Candidates (T.model self.now.trellis.now) self.now.k false (values L.Lane.value self.now.row.now) (values L.Lane.value a.new) (2 * (h + 1)) }
        ensures second { Candidates (T.model self.now.trellis.now) self.now.k true (values L.Lane.value self.now.row.now) (values L.Lane.value b.new) (2 * (h + 1)) }
    {
        let t = 2 * h;
        let even_first = self.candidate(t, false);
        let even_second = self.candidate(t, true);
        let odd_first = self.candidate(t + 1, false);
        let odd_second = self.candidate(t + 1, true);
        a[t] = even_first;
        a[t + 1] = odd_first;
        b[t] = even_second;
        b[t + 1] = odd_second;
    }

    // The candidates of all lanes: two lanes a turn, so that their predecessors can be neighbours and go into vectors.
    fn candidates(&self, a: &mut Row<L>, b: &mut Row<L>)
        ensures first { Candidates (T.model self.now.trellis.now) self.now.k false (values L.Lane.value self.now.row.now) (values L.Lane.value a.new) LANES }
        ensures second { Candidates (T.model self.now.trellis.now) self.now.k true (values L.Lane.value self.now.row.now) (values L.Lane.value b.new) LANES }
    {
        for h in 0..LANES / 2 {
            self.pair(h, a, b);
        }
    }
}

// By index: `map` of an array of any lanes asks for their size in memory, which is not known here, and after a `zip` with
// `iter_mut` a proof knows no element.
fn costs_of<L: Lane>(lanes: &Row<L>) -> Row<u64>
    ensures { (t : ℕ) → t < LANES → slice_index result t ≡ slice_index (values L.Lane.value lanes.now) t }
{
    let mut row = [0; LANES];
    for (t, lane) in lanes.iter().enumerate() {
        row[t] = lane.cost();
    }
    row
}

// A trellis whose path is wanted. The lent memory is no field: as a `&mut` in here, each method that writes it would
// have to promise that it leaves the trellis alone.
#[derive(Drop)]
pub(crate) struct Wanted<'a, T: Trellis> {
    pub(crate) trellis: &'a T,
    ghost on: { (T.model trellis.now).wanted ≡ true },
}

impl<T: Trellis> Wanted<'_, T> {
    // One stage: the next row, and its word of survivors. `below` is a clause here and below, and no fact of `Wanted`, which is
    // of either width: only `any_last_row` chooses the lane.
    fn advance<L: Lane>(&self, work: &mut [u64], k: usize, row: &Row<L>, next: &mut Row<L>)
        requires below { Below (T.model self.now.trellis.now) L.Lane.top }
        requires early { k < (T.model self.now.trellis.now).stages }
        requires room { k < length work.old }
        requires reached { Reached (T.model self.now.trellis.now) work.old k (values L.Lane.value row.now) }
        ensures { Reached (T.model self.now.trellis.now) work.new (k + 1) (values L.Lane.value next.new) }
    {
        // of their own, so that nothing aliases
        let mut a = L::blank();
        let mut b = L::blank();
        let stage = Stage {
            trellis: self.trellis,
            k,
            row,
        };
        stage.candidates(&mut a, &mut b);
        work[k] = select(&a, &b, next);
    }

    // All stages; two a turn, so that no row is copied.
    fn forward<L: Lane>(&self, work: &mut [u64], row: &mut Row<L>)
        requires below { Below (T.model self.now.trellis.now) L.Lane.top }
        requires room { (T.model self.now.trellis.now).stages ≤ length work.old }
        requires reached { Reached (T.model self.now.trellis.now) work.old 0 (values L.Lane.value row.old) }
        ensures { Reached (T.model self.now.trellis.now) work.new (T.model self.now.trellis.now).stages (values L.Lane.value row.new) }
    {
        let n = self.trellis.stages();
        let mut other = L::blank();
        for pair in 0..n / 2 {
            self.advance(work, 2 * pair, row, &mut other);
            self.advance(work, 2 * pair + 1, &other, row);
        }
        if n % 2 == 1 {
            self.advance(work, n - 1, row, &mut other);
            *row = other;
        }
    }

    // The last row and all survivors, from a blank row, which is made where the width is known.
    fn last_row<L: Lane>(&self, work: &mut [u64], mut lanes: Row<L>) -> Row<u64>
        requires below { Below (T.model self.now.trellis.now) L.Lane.top }
        requires room { (T.model self.now.trellis.now).stages ≤ length work.old }
        requires blank { (t : ℕ) → t < LANES → slice_index (values L.Lane.value lanes) t ≡ NO_PATH }
        ensures { Reached (T.model self.now.trellis.now) work.new (T.model self.now.trellis.now).stages result }
    {
        let start = self.trellis.start();
        lanes[start] = L::zero();
        self.forward(work, &mut lanes);
        costs_of(&lanes)
    }

    // The same in sixteen bits a cost where the trellis is narrow.
    fn any_last_row(&self, work: &mut [u64]) -> Row<u64>
        requires room { (T.model self.now.trellis.now).stages ≤ length work.old }
        ensures { Reached (T.model self.now.trellis.now) work.new (T.model self.now.trellis.now).stages result }
    {
        if self.trellis.is_narrow() {
            self.last_row(work, u16::blank())
        } else {
            self.last_row(work, u32::blank())
        }
    }

    // Writes the path that the survivors hold back from the end.
    fn trace_back(&self, work: &[u64], end: usize, path: &mut [bool])
        requires room { (T.model self.now.trellis.now).stages ≤ length work.now }
        requires long { (T.model self.now.trellis.now).stages ≤ length path.old }
        requires low { end < (T.model self.now.trellis.now).states }
        requires trail { Trail (T.model self.now.trellis.now) work.now (T.model self.now.trellis.now).stages end }
        ensures written { (j : ℕ) → j < (T.model self.now.trellis.now).stages → slice_index_or path.new j false ≡ trace (T.model self.now.trellis.now) work.now (T.model self.now.trellis.now).stages end j }
        ensures kept { Kept (T.model self.now.trellis.now).stages path.old path.new }
    {
        let mut t = end;
        for k in (0..self.trellis.stages()).rev() {
            let second = work[k] >> t as u32 & 1 == 1;
            let e = self.trellis.entry(k, t, second).unwrap();
            path[k] = e.bit;
            t = e.from;
        }
    }

    // The search where the path is wanted: a word of survivors for each stage.
    pub(crate) fn search(&self, work: &mut [u64], path: &mut [bool]) -> Option<u32>
        requires room { (T.model self.now.trellis.now).stages ≤ length work.old }
        requires long { (T.model self.now.trellis.now).stages ≤ length path.old }
        ensures { Found (T.model self.now.trellis.now) path.old path.new result }
    {
        let row = self.any_last_row(work);
        let end = best_end(self.trellis, &row)?;
        self.trace_back(work, end, path);
        Some(row[end] as u32)
    }
}
