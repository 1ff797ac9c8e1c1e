// The rows that the calls at a station share. Slices are lent and no `SampledRoad`, which is what is answered.
ghost use Rattle.std.specs.Prelude.{◌≡◌};
ghost use Rattle.refusals.specs.Answer.{answered, checked, value};
ghost use Rattle.records.specs.Roads.{road_of};
ghost use Rattle.surface_calls.specs.SurfaceCalls.{station_rows};

use admission_arguments::on_road;
use line_calls::sampled;
use line_samples::SampledRoad;
use refusals::Refusal;

// The road that the slices hold, with as many samples as it needs and the place s on it; rows 3, 4, 5, 6 and 7.
pub(crate) fn enter<'a>(
    words: &'a [u16],
    numbers: &'a [f64],
    samples: &'a [f64],
    s: f64,
) -> Result<SampledRoad<'a>, Refusal>
    ensures { answered result ≡ checked (station_rows words.now numbers.now samples.now s) (value (record { road = road_of words.now numbers.now; samples = samples.entry })) }
{
    let lent = sampled(words, numbers, samples)?;
    if !on_road(&lent.road, s) {
        return Err(Refusal::Station);
    }
    Ok(lent)
}
