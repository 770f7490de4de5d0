ghost use Rattle.std.specs.Prelude.{◌≡◌, ℕ, ◌*◌, ◌/◌, ◌≤◌, ◌++◌, length, IfOk, OnErr, OnOk, Some, string_bytes, codes};
ghost use Rattle.records.specs.Answers.{line_of_burst, line, newline, text as texted, used};
ghost use Rattle.records.specs.Lines.{begun, hex};
ghost use Rattle.records.specs.Records.{head, place_of, read_as};
ghost use Rattle.standard.specs.Refusals.{burst_rows, first, number};
ghost use Rattle.words.specs.Words.{flags};

use crate::record::{Fault, Mark, Record};
use crate::text::{begin_line, push_hex};
use coder::BURST_BITS;
use standard::order::Request;
use std::alloc::{AllocError, Global};

impl Fault {
    // Writes the line of the record that is refused.
    fn answer(self, text: &mut String) -> Result<(), AllocError>
        ensures { OnOk result (string_bytes text.new ≡ string_bytes text.old ++ (begun self.place self.mark (number self.refusal) ++ newline)) }
    {
        begin_line(text, self.place, self.mark, self.refusal.number())?;
        text.push('\n')
    }
}

// Writes the line of a burst that is sent.
fn sent_line(text: &mut String, place: usize, sent: &[bool]) -> Result<(), AllocError>
    ensures { OnOk result (string_bytes text.new ≡ string_bytes text.old ++ (begun place Mark.Bu 0 ++ (codes " " ++ (hex (length sent.now / 4) (flags sent.now) ++ newline)))) }
{
    begin_line(text, place, Mark::Bu, 0)?;
    text.push(' ')?;
    push_hex(text, sent)?;
    text.push('\n')
}

// Writes the line of a burst.
fn burst_line(
    text: &mut String,
    place: usize,
    request: Request,
    payload: &[u8],
) -> Result<(), AllocError>
    ensures { OnOk result (string_bytes text.new ≡ string_bytes text.old ++ line_of_burst place request payload.now (first (burst_rows request (length payload.now)))) }
{
    let mut sent = [false; BURST_BITS];
    match coder::burst_bits(request, payload, &mut sent) {
        Ok(count) => sent_line(text, place, &sent[..count]),
        Err(refusal) => Fault {
            place,
            mark: Mark::Bu,
            refusal,
        }
        .answer(text),
    }
}

impl Record<'_> {
    // How many bytes it takes.
    fn bytes(self) -> usize
        ensures { Some result ≡ used (read_as self.entry) }
    {
        match self {
            Record::Bu { payload, .. } => 9 + payload.len(),
        }
    }

    // Writes its line.
    fn answer(self, text: &mut String) -> Result<(), AllocError>
        ensures { OnOk result (string_bytes text.new ≡ string_bytes text.old ++ line (place_of self.entry) (read_as self.entry)) }
    {
        match self {
            Record::Bu {
                place,
                request,
                payload,
            } => burst_line(text, place, request, payload),
        }
    }
}

// Adds the line of the record that begins at a place, and says how many bytes it takes; none where the program stops. The
// line is made apart, so that a failed allocation leaves the text as it was.
pub fn answer_record(
    text: &mut String,
    place: usize,
    rest: &[u8],
) -> Result<Option<usize>, AllocError>
    ensures line { OnOk result (string_bytes text.new ≡ string_bytes text.old ++ line place (head rest.now)) }
    ensures used { IfOk result (λ bytes. bytes ≡ used (head rest.now)) }
    ensures kept { OnErr result (string_bytes text.new ≡ string_bytes text.old) }
{
    let mut line = String::new(*text.allocator());
    let bytes = match Record::read(place, rest) {
        Ok(record) => {
            record.answer(&mut line)?;
            Some(record.bytes())
        }
        Err(fault) => {
            fault.answer(&mut line)?;
            None
        }
    };
    text.push_str(&line)?;
    Ok(bytes)
}

// The text that answers an input, a line for each record.
pub fn answer_input(heap: Global, input: &[u8]) -> Result<String, AllocError>
    ensures { IfOk result (λ s. string_bytes s ≡ texted 0 input.now) }
{
    let mut text = String::new(heap);
    let mut place = 0;
    // by hand: a record's length is known once it is read, and its line tells its place
    while place < input.len() {
        let Some(bytes) = answer_record(&mut text, place, &input[place..])? else {
            break;
        };
        place += bytes;
    }
    Ok(text)
}
