// The calls that lines ask for, each held against the answer that the line has.
//
// The rows are: g, the number and the whole lent list as it is afterwards; p, s, the number and six f32; j, x, y and z, the number and five
// f32.
ghost use Rattle.std.specs.Prelude.{◌≡◌, ◌+◌, length};
ghost use Rattle.tracks_calls.specs.TrackCalls.{tangents_list};
ghost use Rattle.test_tracks.specs.Case.{call_of, words_wanted, tangents_agree, pose_agrees, project_agrees, verdict_of, list_told};

use crate::answers::{Answer, pose_numbers, project_numbers, tangents_number};
use records::Point;
use refusals::answer_number;
use std::num::f32_from_bits_with_nan;

// A call that a line asks for.
#[derive(Clone, Copy)]
pub(crate) enum Call {
    Tangents,
    Pose,
    Project,
}

// The call that a line makes, and whether its answer is the line's.
#[derive(Clone, Copy)]
pub(crate) struct Verdict {
    pub(crate) call: Call,
    pub(crate) same: bool,
}

// A line, its words, and the track that its call is on.
#[derive(Clone, Copy)]
pub(crate) struct Asked<'a> {
    pub(crate) line: &'a [u8],
    pub(crate) row: &'a [u32],
    pub(crate) track: &'a [f32],
}

impl Call {
    // The call of a letter.
    #[tactic(auto, unfolding(crate::specs::Case::call_of))]
    fn named(letter: u8) -> Option<Call>
        ensures { result ≡ call_of letter }
    {
        match letter {
            b'g' => Some(Call::Tangents),
            b'p' => Some(Call::Pose),
            b'j' => Some(Call::Project),
            _ => None,
        }
    }

    // How many words its line has.
    fn words(self, list: &[f32]) -> usize
        ensures { result ≡ words_wanted self (length list.now) }
    {
        match self {
            Call::Tangents => list.len() + 1,
            Call::Pose => 8,
            Call::Project => 9,
        }
    }
}

impl Asked<'_> {
    fn tangents(&self, rt: &impl Print, list: &mut [f32]) -> bool
        requires { length self.now.row.now ≡ length list.old + 1 }
        ensures value { result ≡ tangents_agree self.now.track.now list.old self.now.row.now }
        ensures list_after { list.new ≡ tangents_list self.now.track.now list.old }
    {
        let number = tangents_number(tracks_calls::tangents(self.track, list));
        let answer = Answer {
            number,
            numbers: list,
        };
        answer.held_against(rt, self.line, self.row)
    }

    fn pose(&self, rt: &impl Print) -> bool
        requires { length self.now.row.now ≡ 8 }
        ensures { result ≡ pose_agrees self.now.track.now self.now.row.now }
    {
        let row = self.row;
        let pose = tracks_calls::pose_at(self.track, f32_from_bits_with_nan(row[0]));
        let answer = Answer {
            number: answer_number(&pose),
            numbers: &pose_numbers(pose),
        };
        answer.held_against(rt, self.line, &row[1..])
    }

    fn project(&self, rt: &impl Print) -> bool
        requires { length self.now.row.now ≡ 9 }
        ensures { result ≡ project_agrees self.now.track.now self.now.row.now }
    {
        let row = self.row;
        let at = Point {
            x: f32_from_bits_with_nan(row[0]),
            y: f32_from_bits_with_nan(row[1]),
            z: f32_from_bits_with_nan(row[2]),
        };
        let place = tracks_calls::project(self.track, at);
        let answer = Answer {
            number: answer_number(&place),
            numbers: &project_numbers(place),
        };
        answer.held_against(rt, self.line, &row[3..])
    }

    // What is found of a whole line; none where its letter is unknown, or its words are not as many as the call has.
    #[tactic(auto, unfolding(crate::specs::Case::verdict_of, crate::specs::Case::list_told))]
    pub(crate) fn judged(&self, rt: &impl Print, letter: u8, list: &mut [f32]) -> Option<Verdict>
        ensures value { result ≡ verdict_of (call_of letter) self.now.track.now list.old self.now.row.now }
        ensures list_after { list.new ≡ list_told (call_of letter) self.now.track.now list.old self.now.row.now }
    {
        let call = Call::named(letter)?;
        if self.row.len() != call.words(list) {
            return None;
        }
        let same = match call {
            Call::Tangents => self.tangents(rt, list),
            Call::Pose => self.pose(rt),
            Call::Project => self.project(rt),
        };
        Some(Verdict { call, same })
    }
}
