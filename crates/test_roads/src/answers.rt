// What a line asks of a road: a question, whose answer is a row of four numbers, its own and then zeros, or a fill, which writes into the lent slice.
//
// A road is lent as two slices. Three questions make a road of them; a lane's name and the fills are calls, which test whether one lies there.
ghost use Rattle.std.specs.Prelude.{◌≡◌, ◌≤◌, length};
ghost use Rattle.lanes_calls.specs.LaneCalls.{lane_named_call};
ghost use Rattle.test_support.specs.Answers.{count_word};
ghost use Rattle.test_roads.specs.Case.{pose_numbers, lane_across, across_numbers, toward_numbers, name_number, question_of, answer_numbers, lent_number, fill_of, filled_of, filled_list};

use lanes::sign_of;
use lanes_heights::Across;
use line_samples::{Pose, SampledRoad};
use reader_hex::of_bits;
use records::{LanePlace, LentRoad};
use test_support::{Line, count_word};

// x, y and heading of a pose.
fn pose_numbers(p: Pose) -> [f64; 4]
    ensures { result ≡ pose_numbers p }
{
    [p.x, p.y, p.heading, 0.0]
}

// A lane at s: its two borders and its height at each.
#[tactic(auto, unfolding(crate::specs::Case::lane_across))]
fn lane_across(road: &LentRoad, s: f64, lane: u64) -> Across
    ensures { result ≡ lane_across road.now s lane }
{
    let bank = records_active::value(&road.superelevations(), s);
    let place = LanePlace {
        section: records_active::section_index(road, s),
        right: lane % 2 == 1,
        k: (lane / 2) as usize,
    };
    lanes_heights::lane_across(road, place, s, arithmetic_sine::tan(bank))
}

fn across_numbers(a: Across) -> [f64; 4]
    ensures { result ≡ across_numbers a }
{
    [a.inner_t, a.outer_t, a.inner_height, a.outer_height]
}

// The heights of a road's shape at t, to the left and to the right.
fn toward_numbers(road: &LentRoad, s: f64, t: f64) -> [f64; 4]
    ensures { result ≡ toward_numbers road.now s t }
{
    let left = lanes_shape::height_toward(road, s, t, sign_of(false));
    let right = lanes_shape::height_toward(road, s, t, sign_of(true));
    [left, right, 0.0, 0.0]
}

// The id of the lane at t, 0 for none, NaN for a refusal. A match of the three cases: one `map_or` inside another would say the same in their place.
fn name(words: &[u16], numbers: &[f64], s: f64, t: f64) -> f64
    ensures { result ≡ name_number (lane_named_call words.now numbers.now s t) }
{
    match lanes_calls::lane_named(words, numbers, s, t) {
        Ok(Some(id)) => f64::from(id),
        Ok(None) => 0.0,
        Err(_) => f64::NAN,
    }
}

// What a line asks of a road: the answer is some numbers.
#[derive(Clone, Copy)]
pub(crate) enum Question {
    LinePose,
    LaneAcross,
    HeightToward,
    LaneName,
}

impl Question {
    // The question of a letter.
    #[tactic(auto, unfolding(crate::specs::Case::question_of))]
    pub(crate) fn named(letter: u8) -> Option<Question>
        ensures { result ≡ question_of letter }
    {
        match letter {
            b'p' => Some(Question::LinePose),
            b'h' => Some(Question::LaneAcross),
            b't' => Some(Question::HeightToward),
            b'l' => Some(Question::LaneName),
            _ => None,
        }
    }

    // How many numbers of its row are its answer: a row is an array, of the length of the longest.
    pub(crate) fn count(self) -> usize
        ensures { result ≤ 4 }
    {
        match self {
            Question::LinePose => 3,
            Question::LaneAcross => 4,
            Question::HeightToward => 2,
            Question::LaneName => 1,
        }
    }

    // The row of its answer; lent holds the samples.
    pub(crate) fn row(self, line: Line, words: &[u16], numbers: &[f64], lent: &[f64]) -> [f64; 4]
        ensures { result ≡ answer_numbers self line.a line.b words.now numbers.now lent.now }
    {
        let road = LentRoad::new(words, numbers);
        let x = of_bits(line.a);
        let y = of_bits(line.b);
        match self {
            Question::LinePose => {
                let sampled = SampledRoad {
                    road,
                    samples: lent,
                };
                pose_numbers(line_pose::pose(&sampled, line.a as usize, y))
            }
            Question::LaneAcross => across_numbers(lane_across(&road, x, line.b)),
            Question::HeightToward => toward_numbers(&road, x, y),
            Question::LaneName => [name(words, numbers, x, y), 0.0, 0.0, 0.0],
        }
    }
}

// The number of the lent slice so many places past one, NaN where the slice has none.
#[tactic(auto, unfolding(crate::specs::Case::lent_number))]
pub(crate) fn lent_number(lent: &[f64], from: u64, part: u64) -> f64
    ensures { result ≡ lent_number lent.now from part }
{
    records_lent::number(lent, from.wrapping_add(part) as usize)
}

// What a line has written into the lent slice.
#[derive(Clone, Copy)]
pub(crate) enum Fill {
    Borders,
    Samples,
}

impl Fill {
    // What is written for a letter.
    #[tactic(auto, unfolding(crate::specs::Case::fill_of))]
    pub(crate) fn named(letter: u8) -> Option<Fill>
        ensures { result ≡ fill_of letter }
    {
        match letter {
            b'b' => Some(Fill::Borders),
            b's' => Some(Fill::Samples),
            _ => None,
        }
    }

    // Writes the borders at s, or the samples, and answers how many.
    pub(crate) fn write(self, s: u64, words: &[u16], numbers: &[f64], lent: &mut [f64]) -> u64
        ensures value { result ≡ count_word (filled_of self s words.now numbers.now (length lent.old)) }
        ensures lent_after { lent.new ≡ filled_list self s words.now numbers.now lent.old }
    {
        match self {
            Fill::Borders => count_word(lanes_calls::borders(words, numbers, of_bits(s), lent)),
            Fill::Samples => count_word(line_calls::samples(words, numbers, lent)),
        }
    }
}
