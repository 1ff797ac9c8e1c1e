// A line of a list is 36 bytes: a letter, a space, 16 digits, a space, 16 digits, LF.
//
// A letter is made a program's own enum by a function `named`, no `TryFrom`: its error would say no more than `None` does, and callers only ask
// whether there is a call of that letter.
//
// Each program reads its list and splits it into lines by itself: where two do it alike, it is `read_full` and `chunks`, a line each.
ghost use Rattle.std.specs.Prelude.{◌≡◌};
ghost use Rattle.test_support.specs.Lines.{line_of};

use reader_hex::sixteen_before;

pub const LINE_LENGTH: usize = 36;

#[derive(Clone, Copy)]
pub struct Line {
    pub letter: u8,
    pub a: u64,
    pub b: u64,
}

// The line that a list begins with, if it has the form.
#[tactic(auto, unfolding(crate::specs::Lines::line_of))]
pub fn line_of(list: &[u8]) -> Option<Line>
    ensures { result ≡ line_of list.now }
{
    if list.len() < LINE_LENGTH || list[1] != b' ' {
        return None;
    }
    let a = sixteen_before(list, 2, b' ')?;
    let b = sixteen_before(list, 19, b'\n')?;
    Some(Line {
        letter: list[0],
        a,
        b,
    })
}
