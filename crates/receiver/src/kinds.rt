ghost use Rattle.std.specs.Prelude.{◌≡◌, ◌+◌, ◌*◌, ◌<◌, ◌≤◌, length};
ghost use Rattle.receiver.specs.Kinds.{Kinds, kind, part as parted, with_output};
ghost use Rattle.standard.specs.Profiles.{period as periodic};
ghost use Rattle.words.specs.Words.{flags};

use standard::profile::{Coded, InnerRate};

// What was heard of the outputs of a stage; `None` where one is punctured.
#[derive(Clone, Copy)]
pub(crate) struct Heard {
    pub(crate) x: Option<bool>,
    pub(crate) y: Option<bool>,
}

// What may be heard of an output, by its number.
const OUTPUTS: [Option<bool>; 3] = [Some(false), Some(true), None];

fn number(heard: Option<bool>) -> u8
    ensures is { result ≡ parted heard }
    ensures low { result < 3 }
{
    heard.map_or(2, |bit| u8::from(bit))
}

impl Heard {
    pub(crate) const NONE: Heard = Heard { x: None, y: None };

    // Its row in a table of the nine that there are, in a byte: with all of it kept for each stage, a call took half as much
    // stack again.
    fn index(self) -> u8
        ensures is { result ≡ kind self.x self.y }
        ensures low { result < 9 }
    {
        number(self.x) + 3 * number(self.y)
    }

    // The one of a row of that table.
    pub(crate) fn at(index: usize) -> Heard
        requires { index < 9 }
        ensures { kind result.x result.y ≡ index }
    {
        Heard {
            x: OUTPUTS[index % 3],
            y: OUTPUTS[index / 3],
        }
    }

    // And one output more.
    fn with(self, output: Coded, bit: bool) -> Heard
        ensures { result ≡ with_output self output bit }
    {
        match output {
            Coded::X1 | Coded::X3 | Coded::X5 => Heard {
                x: Some(bit),
                ..self
            },
            Coded::Y1 | Coded::Y2 | Coded::Y4 => Heard {
                y: Some(bit),
                ..self
            },
        }
    }
}

// The rows of the stages of one period, by what was heard of them: the first sends both outputs, the others one.
fn fill_period(rate: InnerRate, heard: &[bool], rows: &mut [u8])
    requires heard { length heard.now ≡ periodic rate + 1 }
    requires rows { length rows.old ≡ periodic rate }
    ensures { Kinds (periodic rate) (flags heard.now) rows.new (periodic rate) }
{
    let sent = rate.puncturing();
    let first = Heard::NONE.with(sent[0], heard[0]).with(sent[1], heard[1]);
    rows[0] = first.index();
    // by an index, which goes into three slices: after a `zip` with `iter_mut` a proof knows no element
    for i in 1..rows.len() {
        rows[i] = Heard::NONE.with(sent[i + 1], heard[i + 1]).index();
    }
}

// The rows of every stage. By places and not by `chunks_mut`, after which a proof knows no element.
pub(crate) fn fill_kinds(rate: InnerRate, periods: usize, heard: &[bool], rows: &mut [u8])
    requires room { periodic rate * periods ≤ length rows.old }
    requires held { (periodic rate + 1) * periods ≤ length heard.now }
    ensures { Kinds (periodic rate) (flags heard.now) rows.new (periodic rate * periods) }
{
    let period = rate.period();
    for q in 0..periods {
        let first = period * q;
        fill_period(
            rate,
            &heard[first + q..first + q + period + 1],
            &mut rows[first..first + period],
        );
    }
}
