//! Bits and bytes by position, highest bit first: definitions that every step of the chains shares, and their laws.
#![tactic(auto)]

ghost use Rattle.std.specs.Prelude.{ℕ, ◌+◌, ◌*◌, ◌^◌, ◌<◌, ◌≤◌, length, ◌≡◌};
ghost use Rattle.words.specs.Words.{Bits, Bytes, bits, bytes, digit as digited, flags, value, word};

// Bit `k` of the bytes.
pub fn bit_at(packed: &[u8], k: usize) -> bool
    requires { k < 8 * length packed.now }
    ensures { result ≡ bits (word packed.now) k }
{
    (packed[k / 8] >> (7 - k % 8) as u32) % 2 == 1
}

// A bit as a number.
pub fn digit(b: bool) -> u8
    ensures value { result ≡ digited b }
    ensures below { result < 2 }
{
    u8::from(b)
}

// The bits as a number, highest first.
pub fn number(bits: &[bool]) -> usize
    requires { length bits.now ≤ 8 }
    ensures value { result ≡ value (length bits.now) (flags bits.now) }
    ensures below { result < 2 ^ length bits.now }
{
    let mut v = 0;
    for &bit in bits {
        v = v * 2 + usize::from(bit);
    }
    v
}

// The four bits from `at` on as a number, highest first.
#[tactic(auto, using(crate::proofs::Numbers::part_value))]
pub fn nibble(bits: &[bool], at: usize) -> u8
    requires { at + 4 ≤ length bits.now }
    ensures value { result ≡ value 4 (λ t. flags bits.now (at + t)) }
    ensures below { result < 16 }
{
    number(&bits[at..at + 4]) as u8
}

// Bits and bytes say the same: see the contract.
pub fn bytes_are_bits()
    ensures packed { (u : Bits) (k : ℕ) → bits (bytes u) k ≡ u k }
    ensures unpacked { (w : Bytes) (i : ℕ) → w i < 256 → bytes (bits w) i ≡ w i }
{}
