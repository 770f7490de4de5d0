ghost use Rattle.std.specs.Prelude.{◌≡◌, ◌+◌, ◌*◌, ◌<◌, ℕ, slice_index};
ghost use Rattle.inner_words.specs.Receiving.{cost_of, differs as differing, x_of, y_of};
ghost use Rattle.receiver.specs.Kinds.{Costs, Row};
ghost use Rattle.words.specs.Words.{digit};

use crate::kinds::Heard;

// A window is the six bits of the register and the present one, which is lowest; an output is the sum of the bits at
// its taps.
const X_TAPS: usize = 0b100_1111;

const Y_TAPS: usize = 0b110_1101;

// What each window costs at a stage: by its present bit, and then by its register, through which the search goes in
// steps of one.
pub(crate) type Row = [[u16; 64]; 2];

fn output(window: usize, taps: usize) -> bool
    requires { window < 128 }
    ensures x { taps ≡ X_TAPS → result ≡ x_of window }
    ensures y { taps ≡ Y_TAPS → result ≡ y_of window }
{
    (window & taps).count_ones() % 2 == 1
}

// What an output costs against what was heard of it.
fn differs(output: bool, heard: Option<bool>) -> u16
    ensures cost { result ≡ differing output heard }
    ensures small { result < 2 }
{
    u16::from(heard.is_some_and(|bit| bit != output))
}

fn cost(heard: Heard, register: usize, bit: bool) -> u16
    requires { register < 64 }
    ensures { result ≡ cost_of (2 * register + digit bit) heard.x heard.y }
{
    let window = 2 * register + usize::from(bit);
    differs(output(window, X_TAPS), heard.x) + differs(output(window, Y_TAPS), heard.y)
}

fn half(heard: Heard, bit: bool) -> [u16; 64]
    ensures { (s : ℕ) → s < 64 → slice_index result s ≡ cost_of (2 * s + digit bit) heard.x heard.y }
{
    let mut half = [0; 64];
    for (register, entry) in half.iter_mut().enumerate() {
        *entry = cost(heard, register, bit);
    }
    half
}

fn row(heard: Heard) -> Row
    ensures { Row result heard.x heard.y }
{
    [half(heard, false), half(heard, true)]
}

// What each window costs, whatever was heard.
pub(crate) fn costs() -> [Row; 9]
    ensures { Costs result }
{
    let mut costs = [[[0; 64]; 2]; 9];
    for (index, entry) in costs.iter_mut().enumerate() {
        *entry = row(Heard::at(index));
    }
    costs
}
