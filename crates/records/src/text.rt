ghost use Rattle.std.specs.Prelude.{◌≡◌, ℕ, ◌+◌, ◌*◌, ◌/◌, ◌<◌, ◌≤◌, true, ◌++◌, length, Some, string_bytes, OnOk};
ghost use Rattle.records.specs.Lines.{begun, hex, named};
ghost use Rattle.std.specs.Fmt.{digit_glyph};
ghost use Rattle.words.specs.Words.{flags, value};

use crate::record::Mark;
use std::alloc::AllocError;
use std::fmt;
use std::fmt::Write;
use words::number;

impl fmt::Display for Mark {
    ghost output = { λ m. Some (named m) };
    // a mark is written bare, whatever the hole asks for
    ghost styled_output = { λ m _. Some (named m) };

    fn fmt<W: fmt::Write>(&self, f: &mut fmt::Formatter<W>) -> fmt::Result {
        match self {
            Mark::Bu => f.write_str("BU"),
            Mark::Unknown => f.write_str("??"),
        }
    }
}

// Writes a line's beginning: place, mark and answer, parted by one space.
pub(crate) fn begin_line(
    text: &mut String,
    place: usize,
    mark: Mark,
    answer: u8,
) -> Result<(), AllocError>
    ensures { OnOk result (string_bytes text.new ≡ string_bytes text.old ++ begun place mark answer) }
{
    write!(text, "{place} {mark} {answer}")
}

// A number below sixteen as a hexadecimal capital.
fn hex_digit(n: usize) -> char
    requires { n < 16 }
    ensures glyph { result ≡ digit_glyph true n }
    ensures ascii { result < 128 }
{
    let n = n as u8;
    if n < 10 {
        (b'0' + n) as char
    } else {
        (b'A' + (n - 10)) as char
    }
}

// Writes the bits, four to a hexadecimal capital. Digit by digit and not by `{:X}`: a `write!` for each took two fifths of the
// program's time.
#[tactic(auto, unfolding(crate::specs::Lines::hex))]
pub(crate) fn push_hex(text: &mut String, bits: &[bool]) -> Result<(), AllocError>
    ensures { OnOk result (string_bytes text.new ≡ string_bytes text.old ++ hex (length bits.now / 4) (flags bits.now)) }
{
    for four in bits.chunks_exact(4) {
        text.push(hex_digit(number(four)))?;
    }
    Ok(())
}
