// The call that dots a lane of a road in lent memory.
ghost use Rattle.std.specs.Prelude.{◌≡◌, length};
ghost use Rattle.refusals.specs.Answer.{answer_number};
ghost use Rattle.dots_calls.specs.DotsCall.{dots_call, dots_list};
ghost use Rattle.riftkettle.specs.Exports.{left_by};

use crate::answers::leave;

// Refuses 3, 4, 5, 6, 10, 15, 16, 17.
#[unsafe(no_mangle)]
pub extern "C" fn riftkettle_dots(
    words: &[u16],
    numbers: &[f64],
    samples: &[f64],
    section: usize,
    lane: i32,
    spacing: f32,
    stations: &[f64],
    list: &mut [f64],
    dots: &mut usize,
) -> u32
    ensures value { result ≡ answer_number (dots_call words.now numbers.now samples.now section lane spacing stations.now (length list.old)) }
    ensures list_after { list.new ≡ dots_list words.now numbers.now samples.now section lane spacing stations.now list.old }
    ensures dots_after { dots.new ≡ left_by (λ n. n) (dots_call words.now numbers.now samples.now section lane spacing stations.now (length list.old)) dots.old }
{
    let placed = dots_calls::dots(
        words, numbers, samples, section, lane, spacing, stations, list,
    );
    leave(placed, dots)
}
