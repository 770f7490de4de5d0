ghost use Rattle.std.specs.Prelude.{ℕ, ◌+◌, ◌*◌, ◌<◌, ◌≤◌, length, ◌≡◌};
ghost use Rattle.interleaver.specs.Interleaver.{Interleaved, place as placed, turn as turned};
ghost use Rattle.interleaver.specs.Steps.{Run, Symbol, Symbols, from, stride, to};
ghost use Rattle.interleaver.specs.Symbols.{symbol};
ghost use Rattle.standard.specs.Modulations.{carrier_bits};
ghost use Rattle.words.specs.Words.{flags};

use crate::Interleaver;
use standard::modulation::Modulation;

// Which way bits go: coded bits to their places, or back.
#[derive(Clone, Copy)]
enum Way {
    Forth,
    Back,
}

impl Way {
    // Where coded bit `k`, which goes to place `j`, is read and where it is written.
    fn ends(self, k: usize, j: usize) -> (usize, usize)
        ensures from { (x : Interleaver) → j ≡ placed x.subchannels (carrier_bits x.modulation) k → result.0 ≡ from self x k }
        ensures to { (x : Interleaver) → j ≡ placed x.subchannels (carrier_bits x.modulation) k → result.1 ≡ to self x k }
    {
        match self {
            Way::Forth => (k, j),
            Way::Back => (j, k),
        }
    }
}

impl Interleaver {
    // How many bits a row has, of the twelve of a symbol: once, twice, four or six times the subchannels. Here and in
    // `turn` by the modulation's place in its enum, which is 0, 1, 2, 3 where an axis has 1, 1, 2, 3 bits: with a `match`
    // `place` takes nearly twice the instructions.
    fn width(self) -> usize
        ensures value { result ≡ self.subchannels * carrier_bits self.modulation }
        ensures few { result ≤ 96 }
    {
        self.subchannels * (2 * self.modulation as usize).max(1)
    }

    // How many bits a group has that is turned: as many as an axis.
    fn turn(self) -> usize
        ensures { result ≡ turned (carrier_bits self.modulation) }
    {
        (self.modulation as usize).max(1)
    }

    // Where coded bit `k` of a symbol goes.
    pub fn place(self, k: usize) -> usize
        requires within { k < symbol self }
        ensures value { result ≡ placed self.subchannels (carrier_bits self.modulation) k }
        ensures below { result < symbol self }
    {
        let row = k % 12;
        let w = self.width();
        let m = w * row + k / 12;
        let s = self.turn();
        // each by a constant: a division by `s` itself takes several times as long
        if s == 3 {
            m / 3 * 3 + (m + 12 * w - row) % 3
        } else if s == 2 {
            m / 2 * 2 + (m + 12 * w - row) % 2
        } else {
            m
        }
    }

    // Permutes every coded bit that is a whole number of strides from `first`. Coded bits 12 s apart go to places
    // s apart, so that no bit asks for a division.
    fn permute_run(self, way: Way, base: usize, first: usize, word: &[bool], out: &mut [bool])
        requires start { first < stride (carrier_bits self.modulation) }
        requires word_long { base + symbol self ≤ length word.now }
        requires out_long { base + symbol self ≤ length out.old }
        ensures { Run self.subchannels (carrier_bits self.modulation) base first (from way self) (to way self) (flags word.now) (flags out.old) (flags out.new) }
    {
        let s = self.turn();
        let j = self.place(first);
        for t in 0..self.width() / s {
            let (from, to) = way.ends(first + 12 * s * t, j + s * t);
            out[base + to] = word[base + from];
        }
    }

    // Permutes the symbol that starts at `base`.
    fn permute_symbol(self, way: Way, base: usize, word: &[bool], out: &mut [bool])
        requires word_long { base + symbol self ≤ length word.now }
        requires out_long { base + symbol self ≤ length out.old }
        ensures { Symbol self.subchannels (carrier_bits self.modulation) base (from way self) (to way self) (flags word.now) (flags out.old) (flags out.new) }
    {
        for first in 0..12 * self.turn() {
            self.permute_run(way, base, first, word, out);
        }
    }

    // Permutes `count` symbols, by a modulation that the caller names.
    fn permute_by(self, way: Way, count: usize, word: &[bool], out: &mut [bool])
        requires word_long { symbol self * count ≤ length word.now }
        requires out_long { symbol self * count ≤ length out.old }
        ensures { Symbols self.subchannels (carrier_bits self.modulation) count (from way self) (to way self) (flags word.now) (flags out.old) (flags out.new) }
    {
        for b in 0..count {
            self.permute_symbol(way, 12 * self.width() * b, word, out);
        }
    }

    // This one with a modulation that the caller names.
    fn with(self, modulation: Modulation) -> Interleaver
        ensures subchannels { result.subchannels ≡ self.subchannels }
        ensures modulation { result.modulation ≡ modulation }
    {
        Interleaver {
            subchannels: self.subchannels,
            modulation,
        }
    }

    // Permutes `count` symbols. Each modulation has a loop of its own, in which its strides are constants: without that
    // here and in the constellation a whole burst took 5.1 ns a coded bit at rate 2, past the bar of 5; it takes 3.3.
    fn permute(self, way: Way, count: usize, word: &[bool], out: &mut [bool])
        requires word_long { symbol self * count ≤ length word.now }
        requires out_long { symbol self * count ≤ length out.old }
        ensures { Symbols self.subchannels (carrier_bits self.modulation) count (from way self) (to way self) (flags word.now) (flags out.old) (flags out.new) }
    {
        match self.modulation {
            Modulation::Bpsk => self
                .with(Modulation::Bpsk)
                .permute_by(way, count, word, out),
            Modulation::Qpsk => self
                .with(Modulation::Qpsk)
                .permute_by(way, count, word, out),
            Modulation::Qam16 => self
                .with(Modulation::Qam16)
                .permute_by(way, count, word, out),
            Modulation::Qam64 => self
                .with(Modulation::Qam64)
                .permute_by(way, count, word, out),
        }
    }

    // Interleaves `count` symbols: both slices may be longer, as the arrays of the longest burst are.
    pub fn interleave(self, count: usize, coded: &[bool], sent: &mut [bool])
        requires coded_long { symbol self * count ≤ length coded.now }
        requires sent_long { symbol self * count ≤ length sent.old }
        ensures interleaved { Interleaved self.subchannels (carrier_bits self.modulation) count (flags coded.now) (flags sent.new) }
        ensures rest { (j : ℕ) → symbol self * count ≤ j → flags sent.new j ≡ flags sent.old j }
    {
        self.permute(Way::Forth, count, coded, sent);
    }

    // Undoes the interleaving of `count` symbols.
    pub fn deinterleave(self, count: usize, heard: &[bool], coded: &mut [bool])
        requires heard_long { symbol self * count ≤ length heard.now }
        requires coded_long { symbol self * count ≤ length coded.old }
        ensures interleaved { Interleaved self.subchannels (carrier_bits self.modulation) count (flags coded.new) (flags heard.now) }
        ensures rest { (k : ℕ) → symbol self * count ≤ k → flags coded.new k ≡ flags coded.old k }
    {
        self.permute(Way::Back, count, heard, coded);
    }
}
