// The stations of the dots on a lane, or a refusal.
// Slices are lent and no `SampledRoad`: they are one only once `sampled` has answered it.
ghost use Rattle.std.specs.Prelude.{◌≡◌, length};
ghost use Rattle.refusals.specs.Answer.{answered};
ghost use Rattle.dots_calls.specs.DotsCall.{dots_call, dots_list};

use crate::lists::place_dots;
use line_calls::sampled;
use refusals::Refusal;
use surface_calls::lane_with_id;

// Writes the stations of the dots that a spacing gives on a lane of a section, and answers how many; rows 3, 4, 5, 6, 10, 15, 16 and 17. A dot is kept where a mark span of kind 1 covers the lane. The rest of the list, and all of it on a refusal, stays as it was. On a straight road, its lane marked from 2 to 5, stations 0 and 8 and spacing 1 give 2, 3 and 4.
pub fn dots(
    words: &[u16],
    numbers: &[f64],
    samples: &[f64],
    section: usize,
    lane: i32,
    spacing: f32,
    stations: &[f64],
    list: &mut [f64],
) -> Result<usize, Refusal>
    ensures result_value { answered result ≡ dots_call words.now numbers.now samples.now section lane spacing stations.now (length list.old) }
    ensures list_after { list.new ≡ dots_list words.now numbers.now samples.now section lane spacing stations.now list.old }
{
    let lent = sampled(words, numbers, samples)?;
    let place = lane_with_id(&lent.road, section, lane).ok_or(Refusal::Lane)?;
    place_dots(&lent, place, spacing, stations, list)
}
