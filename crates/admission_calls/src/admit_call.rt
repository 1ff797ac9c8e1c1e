// Whether a lent road is admitted.
ghost use Rattle.std.specs.Prelude.{◌≡◌};
ghost use Rattle.refusals.specs.Answer.{answered, checked, value};
ghost use Rattle.records.specs.Roads.{road_of};
ghost use Rattle.admission.specs.Admission.{road_rows};

use admission_limits::limited;
use admission_order::ordered;
use admission_structure::structured;
use line_samples::samples_fit;
use records::LentRoad;
use refusals::Refusal;

// The road that the slices hold; rows 3, 4 and 5, in this order. Every call that takes a road begins with it.
pub fn admit<'w, 'a>(words: &'w [u16], numbers: &'a [f64]) -> Result<LentRoad<'w, 'a>, Refusal>
    ensures { answered result ≡ checked (road_rows words.now numbers.now) (value (road_of words.now numbers.now)) }
{
    let road = LentRoad::new(words, numbers);
    if !(structured(words, numbers) && ordered(&road)) {
        return Err(Refusal::Structure);
    }
    if !limited(&road) {
        return Err(Refusal::Range);
    }
    if !samples_fit(&road) {
        return Err(Refusal::SampleBudget);
    }
    Ok(road)
}
