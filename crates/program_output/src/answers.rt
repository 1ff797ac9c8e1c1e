// A job text answered: read, its road's samples made, and a line for each want.
//
// Functions take the two lent slices and no road: the calls that they make take the slices.
ghost use Rattle.std.specs.Prelude.{◌+◌, ◌*◌, ◌/◌, ◌≤◌, ◌≡◌, ◌++◌, true, length};
ghost use Rattle.refusals.specs.Refusal.{number_of};
ghost use Rattle.records.specs.Layout.{want_stride, wants_needed};
ghost use Rattle.admission.specs.Admission.{admitted};
ghost use Rattle.program_output.specs.declared.text.TheConstants.{OUTPUT_NEEDED, WANT_LENGTH};
ghost use Rattle.program_output.specs.Lines.{refused_line};
ghost use Rattle.program_output.specs.Output.{want_lines, wants_text, output_of, bytes_written, answered_in};

use crate::lines::push_want;
use crate::text::{OUTPUT_NEEDED, Text, push_number};
use line_samples::{SAMPLE_STRIDE, SAMPLES_NEEDED};
use records::layout::{NUMBERS_NEEDED, WANT_STRIDE, WANTS_NEEDED, WORDS_NEEDED};
use refusals::Refusal;

// The line of a refused job.
fn refused(r: Refusal) -> Text
    ensures { result ≡ refused_line (number_of r) }
{
    let mut text = Text::new();
    text.append(b"refused ");
    push_number(&mut text, r);
    text
}

// The lines of the wants. By index: over `as_chunks`, tried, the proof that a turn keeps the invariant did not close.
fn push_wants(text: &mut Text, words: &[u16], numbers: &[f64], samples: &[f64], wants: &[u64])
    requires { length text.old + WANT_LENGTH * (length wants.now / want_stride) ≤ OUTPUT_NEEDED }
    ensures { text.new ≡ text.old ++ want_lines words.now numbers.now samples.now wants.now (length wants.now / want_stride) }
{
    for k in 0..wants.len() / WANT_STRIDE {
        let s = wants[k * WANT_STRIDE];
        let t = wants[k * WANT_STRIDE + 1];
        let answer = surface_calls::surface(
            words,
            numbers,
            samples,
            reader_hex::of_bits(s),
            reader_hex::of_bits(t),
        );
        push_want(text, s, t, answer);
    }
}

// The text of an admitted road's wants. Its samples are made here.
fn wants_text(words: &[u16], numbers: &[f64], wants: &[u64]) -> Text
    requires numbers_value { admitted words.now numbers.now ≡ true }
    requires wants_bound { length wants.now ≤ wants_needed }
    ensures { result ≡ wants_text words.now numbers.now wants.now (length wants.now / want_stride) }
{
    let mut samples = [0.0; SAMPLES_NEEDED];
    let mut text = Text::new();
    // it is a count each time: an admitted road has no more samples than there is room for
    if let Ok(count) = line_calls::samples(words, numbers, &mut samples) {
        text.append(b"s t x y z\n");
        push_wants(
            &mut text,
            words,
            numbers,
            &samples[..count * SAMPLE_STRIDE],
            wants,
        );
    }
    text
}

fn output_of(job: &[u8]) -> Text
    ensures { result ≡ output_of job.now }
{
    let mut words = [0; WORDS_NEEDED];
    let mut numbers = [0.0; NUMBERS_NEEDED];
    let mut wants = [0; WANTS_NEEDED];
    match reader_calls::read(job, &mut words, &mut numbers, &mut wants) {
        Ok(n) => wants_text(&words, &numbers, &wants[..n * WANT_STRIDE]),
        Err(r) => refused(r),
    }
}

// The text that the program writes for a job text, put at the start of out, and its length. Nothing is written and the answer is 0 where out has
// fewer bytes than the longest takes: no text is empty, so a caller tells the two apart, and the promise is the one that callers have.
// No slice of out in place of the length: what out then holds would be said by an `ensures*`, which, tried, is not proved of a part that is handed out.
pub fn answer(text: &[u8], out: &mut [u8]) -> usize
    ensures in_bounds { result ≤ length out.new }
    ensures value { result ≡ bytes_written text.now out.old }
    ensures out_after { out.new ≡ answered_in text.now out.old }
{
    if out.len() < OUTPUT_NEEDED {
        return 0;
    }
    let output = output_of(text);
    let bytes = output.as_slice();
    out[..bytes.len()].copy_from_slice(bytes);
    bytes.len()
}
