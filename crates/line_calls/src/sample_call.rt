// The samples of a road's spirals, written into a lent slice, four f64 each: distance, x, y, heading.
// Two slices are lent and no `LentRoad`: they are a road only once `admit` has answered one.
ghost use Rattle.std.specs.Prelude.{◌≡◌, [], ◌∷◌, ◌++◌, ◌+◌, ◌*◌, ◌/◌, ◌≤◌, length, drop};
ghost use Rattle.std.proofs.lemmas.List.Edits.{sets};
ghost use Rattle.refusals.specs.Answer.{answered};
ghost use Rattle.line_samples.specs.Samples.{sample_stride, sample_count, samples_needed, later_samples, samples_of, geom_samples, flat};
ghost use Rattle.line_calls.specs.SampleCall.{samples_call, samples_list};

use crate::sampled_road::needed_in;
use admission_calls::admit;
use line_samples::{SAMPLE_STRIDE, Sample, Spiral, sample_count};
use records::{GeomRec, GeomShape, LentRoad};
use records_geometry::geom;
use refusals::Refusal;

// One sample, in a part of four numbers.
fn put(part: &mut [f64], p: Sample)
    requires { length part.old ≡ sample_stride }
    ensures { part.new ≡ flat (p ∷ []) }
{
    part.copy_from_slice(&<[f64; SAMPLE_STRIDE]>::from(p));
}

// The samples after p, as many as the part has room for. By index: once a loop over `chunks_mut` is over, a proof knows how long the slice is and not what it holds.
fn write_steps(spiral: &Spiral, p: Sample, part: &mut [f64])
    requires { length part.old ≡ length part.old / sample_stride * sample_stride }
    ensures { part.new ≡ flat (later_samples spiral.now.geom spiral.now.k0 spiral.now.k1 (length part.old / sample_stride) p) }
{
    let mut last = p;
    for i in 0..part.len() / SAMPLE_STRIDE {
        last = spiral.next_sample(last);
        let at = i * SAMPLE_STRIDE;
        put(&mut part[at..at + SAMPLE_STRIDE], last);
    }
}

// The samples of one geometry, whose part of the slice is lent.
fn write_geom(g: GeomRec, part: &mut [f64])
    requires { length part.old ≡ sample_count g * sample_stride }
    ensures { part.new ≡ flat (geom_samples g) }
{
    if let GeomShape::Spiral(k0, k1) = g.shape {
        let spiral = Spiral { geom: g, k0, k1 };
        let start = spiral.first_sample();
        let (first, later) = part.split_at_mut(SAMPLE_STRIDE);
        put(first, start);
        write_steps(&spiral, start, later);
    }
}

// The samples of all geometries in order, from the slice's start on.
fn write_all(road: &LentRoad, samples: &mut [f64])
    requires { samples_needed road.now * sample_stride ≤ length samples.old }
    ensures { samples.new ≡ samples_of road.now ++ drop (4 * samples_needed road.now) samples.old }
{
    let mut at = 0;
    for i in 0..road.geom_count() {
        let g = geom(road, i);
        let end = at + sample_count(g) * SAMPLE_STRIDE;
        write_geom(g, &mut samples[at..end]);
        at = end;
    }
}

// Makes the samples of a road, and answers how many; rows 3, 4, 5 and 6. The rest of the slice, and all of it on a refusal, stays as it was.
#[tactic(auto, unfolding(crate::specs::SampleCall::samples_call, crate::specs::SampleCall::samples_list))]
pub fn samples(words: &[u16], numbers: &[f64], samples: &mut [f64]) -> Result<usize, Refusal>
    ensures result_value { answered result ≡ samples_call words.now numbers.now (length samples.old) }
    ensures samples_after { samples.new ≡ samples_list words.now numbers.now samples.old }
{
    let road = admit(words, numbers)?;
    let n = needed_in(&road, samples.len())?;
    write_all(&road, samples);
    Ok(n)
}
