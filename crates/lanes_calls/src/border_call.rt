// The borders of a section's lanes at a station, written into a lent list, three f64 a lane: inner, outer, width.
// Two slices are lent and no `LentRoad`: they are a road only once `admit` has answered one.
ghost use Rattle.std.specs.Prelude.{◌≡◌, length};
ghost use Rattle.refusals.specs.Answer.{answered};
ghost use Rattle.lanes_calls.specs.LaneCalls.{borders_call, borders_list};

use admission_arguments::on_road;
use admission_calls::admit;
use lanes_border_list::list_borders;
use records_active::section_index;
use refusals::Refusal;

// Writes the borders at s of the section's lanes, left outward, then right, and answers how many lanes; rows 3, 4, 5, 7 and 11. The rest of the list, and all of it on a refusal, stays as it was.
pub fn borders(words: &[u16], numbers: &[f64], s: f64, list: &mut [f64]) -> Result<usize, Refusal>
    ensures result_value { answered result ≡ borders_call words.now numbers.now s (length list.old) }
    ensures list_after { list.new ≡ borders_list words.now numbers.now s list.old }
{
    let road = admit(words, numbers)?;
    if !on_road(&road, s) {
        return Err(Refusal::Station);
    }
    let section = section_index(&road, s);
    list_borders(&road, section, s, list).ok_or(Refusal::BorderSpace)
}
