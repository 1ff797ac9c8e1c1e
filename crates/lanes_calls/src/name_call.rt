// Which lane lies at an offset from the reference line.
// Two slices are lent and no `LentRoad`: they are a road only once `admit` has answered one.
ghost use Rattle.std.specs.Prelude.{◌≡◌};
ghost use Rattle.refusals.specs.Answer.{answered};
ghost use Rattle.lanes_calls.specs.LaneCalls.{lane_named_call};

use admission_arguments::{across_road, on_road};
use admission_calls::admit;
use lanes_naming::lane_named_in;
use records_active::section_index;
use refusals::Refusal;

// The id of the lane at s and t, positive on the left and negative on the right: none at the base and on a side without lanes, and the outermost's beyond all borders; rows 3, 4, 5, 7 and 8.
pub fn lane_named(words: &[u16], numbers: &[f64], s: f64, t: f64) -> Result<Option<i32>, Refusal>
    ensures { answered result ≡ lane_named_call words.now numbers.now s t }
{
    let road = admit(words, numbers)?;
    if !on_road(&road, s) {
        return Err(Refusal::Station);
    }
    if !across_road(t) {
        return Err(Refusal::Offset);
    }
    Ok(lane_named_in(&road, section_index(&road, s), s, t))
}
