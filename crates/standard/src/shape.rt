ghost use Rattle.std.specs.Prelude.{◌≡◌, ◌+◌, ◌*◌, ◌≤◌};

// The shape of a block of the outer code.
#[derive(Clone, Copy, Debug, PartialEq, Eq)]
pub struct Shape {
    // the bytes of its message
    pub size: usize,
    // how many wrong bytes it is meant to bear
    pub limit: usize,
    ghost short: { size ≤ 239 },
    ghost few: { limit ≤ 8 },
}

impl Shape {
    // How many bytes of parity are sent.
    pub fn parity(self) -> usize
        ensures { result ≡ 2 * self.limit }
    {
        self.limit * 2
    }

    // How many bytes the block has: its parity, then its message.
    pub fn block(self) -> usize
        ensures { result ≡ 2 * self.limit + self.size }
    {
        self.parity() + self.size
    }
}
