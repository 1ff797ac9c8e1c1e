// The lines that the program writes.
ghost use Rattle.std.specs.Prelude.{◌+◌, ◌≤◌, ◌≡◌, ◌++◌, length};
ghost use Rattle.refusals.specs.Answer.{answered};
ghost use Rattle.program_output.specs.declared.text.TheConstants.{OUTPUT_NEEDED, POINT_LENGTH, WANT_LENGTH};
ghost use Rattle.program_output.specs.Lines.{point_line, output_line};

use crate::text::{Text, push_number, push_word};
use reader_hex::{DOUBLE_DIGITS, SINGLE_DIGITS, bits_of_single};
use records::Point;
use refusals::Refusal;
use surface_points::SurfacePoint32;

// x, y and z, eight digits each, and the line's end.
fn push_point(text: &mut Text, p: Point)
    requires { length text.old + POINT_LENGTH ≤ OUTPUT_NEEDED }
    ensures { text.new ≡ text.old ++ point_line p }
{
    push_word(text, bits_of_single(p.x), SINGLE_DIGITS, b' ');
    push_word(text, bits_of_single(p.y), SINGLE_DIGITS, b' ');
    push_word(text, bits_of_single(p.z), SINGLE_DIGITS, b'\n');
}

// A want: s and t as they were read, then its point, or `-` and the number of its refusal.
pub(crate) fn push_want(text: &mut Text, s: u64, t: u64, answer: Result<SurfacePoint32, Refusal>)
    requires { length text.old + WANT_LENGTH ≤ OUTPUT_NEEDED }
    ensures { text.new ≡ text.old ++ output_line s t (answered answer) }
{
    push_word(text, s, DOUBLE_DIGITS, b' ');
    push_word(text, t, DOUBLE_DIGITS, b' ');
    match answer {
        Ok(p) => push_point(text, p.point),
        Err(r) => {
            text.append(b"- ");
            push_number(text, r);
        }
    }
}
