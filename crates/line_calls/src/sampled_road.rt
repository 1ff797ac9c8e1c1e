// A road that is admitted, with as many samples as it needs: what each call with samples begins with.
// Slices are lent and no `SampledRoad`, which is what is made of them here.
ghost use Rattle.std.specs.Prelude.{◌≡◌, ◌/◌, [], ◌∷◌, ◌++◌, length, leb};
ghost use Rattle.refusals.specs.Answer.{answered, row, checked, value};
ghost use Rattle.refusals.specs.declared.refusals.Refusal.TheVariants.{SampleSpace};
ghost use Rattle.records.specs.Roads.{road_of};
ghost use Rattle.line_samples.specs.Samples.{sample_stride, samples_needed};
ghost use Rattle.admission.specs.Admission.{road_rows};
ghost use Rattle.line_calls.specs.SampleCall.{sample_row};

use admission_calls::admit;
use line_samples::{SAMPLE_STRIDE, SampledRoad, samples_needed};
use records::LentRoad;
use refusals::Refusal;

// How many samples a road needs, where a slice of len numbers holds them; row 6.
pub(crate) fn needed_in(road: &LentRoad, len: usize) -> Result<usize, Refusal>
    ensures { answered result ≡ checked (row SampleSpace (leb (samples_needed road.now) (len / sample_stride)) ∷ []) (value (samples_needed road.now)) }
{
    let needed = samples_needed(road);
    if len / SAMPLE_STRIDE < needed {
        return Err(Refusal::SampleSpace);
    }
    Ok(needed)
}

// The road that the slices hold, with the samples; rows 3, 4, 5 and 6.
pub fn sampled<'a>(
    words: &'a [u16],
    numbers: &'a [f64],
    samples: &'a [f64],
) -> Result<SampledRoad<'a>, Refusal>
    ensures { answered result ≡ checked (road_rows words.now numbers.now ++ (sample_row words.now numbers.now (length samples.now) ∷ [])) (value (record { road = road_of words.now numbers.now; samples = samples.entry })) }
{
    let road = admit(words, numbers)?;
    needed_in(&road, samples.len())?;
    Ok(SampledRoad { road, samples })
}
