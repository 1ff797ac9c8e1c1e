// Calls on a road in lent memory. Each checks the road whole and anew.
// The C interface lends a road's two slices as they are; the calls below make a road of them.
ghost use Rattle.std.specs.Prelude.{◌≡◌, length};
ghost use Rattle.refusals.specs.Answer.{answer_number};
ghost use Rattle.admission.specs.Admission.{admit_call};
ghost use Rattle.line_calls.specs.SampleCall.{samples_call, samples_list};
ghost use Rattle.line_pose.specs.Poses.{pose_list};
ghost use Rattle.line_calls.specs.PoseCall.{pose_call};
ghost use Rattle.lanes_calls.specs.LaneCalls.{borders_call, borders_list, lane_named_call};
ghost use Rattle.riftkettle.specs.Exports.{left_by, id_returned};

use crate::answers::leave;
use line_samples::Pose;
use refusals::answer_number;

// No `From`: into an array it may stand only in the type's own crate, line_samples, below the definition `pose_list`, and the call would read
// `<[f64; 3]>::from` in place of this name.
fn pose_list(p: Pose) -> [f64; 3]
    ensures { result ≡ pose_list p }
{
    [p.x, p.y, p.heading]
}

// Refuses 3, 4, 5.
#[unsafe(no_mangle)]
pub extern "C" fn riftkettle_admit(words: &[u16], numbers: &[f64]) -> u32
    ensures { result ≡ answer_number (admit_call words.now numbers.now) }
{
    answer_number(&admission_calls::admit(words, numbers))
}

// Refuses 3, 4, 5, 6.
#[unsafe(no_mangle)]
pub extern "C" fn riftkettle_samples(
    words: &[u16],
    numbers: &[f64],
    samples: &mut [f64],
    made: &mut usize,
) -> u32
    ensures value { result ≡ answer_number (samples_call words.now numbers.now (length samples.old)) }
    ensures samples_after { samples.new ≡ samples_list words.now numbers.now samples.old }
    ensures made_after { made.new ≡ left_by (λ n. n) (samples_call words.now numbers.now (length samples.old)) made.old }
{
    leave(line_calls::samples(words, numbers, samples), made)
}

// Refuses 3, 4, 5, 6, then 3 for a geometry that the road does not have, then 7.
#[unsafe(no_mangle)]
pub extern "C" fn riftkettle_pose(
    words: &[u16],
    numbers: &[f64],
    samples: &[f64],
    geometry: usize,
    s: f64,
    pose: &mut [f64; 3],
) -> u32
    ensures value { result ≡ answer_number (pose_call words.now numbers.now samples.now geometry s) }
    ensures pose_after { pose.new ≡ left_by pose_list (pose_call words.now numbers.now samples.now geometry s) pose.old }
{
    let found = line_calls::posed(words, numbers, samples, geometry, s);
    leave(found.map(pose_list), pose)
}

// Refuses 3, 4, 5, 7, 11.
#[unsafe(no_mangle)]
pub extern "C" fn riftkettle_borders(
    words: &[u16],
    numbers: &[f64],
    s: f64,
    list: &mut [f64],
    lanes: &mut usize,
) -> u32
    ensures value { result ≡ answer_number (borders_call words.now numbers.now s (length list.old)) }
    ensures list_after { list.new ≡ borders_list words.now numbers.now s list.old }
    ensures lanes_after { lanes.new ≡ left_by (λ n. n) (borders_call words.now numbers.now s (length list.old)) lanes.old }
{
    leave(lanes_calls::borders(words, numbers, s, list), lanes)
}

// Refuses 3, 4, 5, 7, 8. The id is 0 where no lane is named: no lane has it.
#[unsafe(no_mangle)]
pub extern "C" fn riftkettle_lane_named(
    words: &[u16],
    numbers: &[f64],
    s: f64,
    t: f64,
    id: &mut i32,
) -> u32
    ensures value { result ≡ answer_number (lane_named_call words.now numbers.now s t) }
    ensures id_after { id.new ≡ left_by id_returned (lane_named_call words.now numbers.now s t) id.old }
{
    let named = lanes_calls::lane_named(words, numbers, s, t);
    leave(named.map(|lane| lane.unwrap_or(0)), id)
}
