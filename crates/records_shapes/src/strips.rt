// The strips of a cross section.
ghost use Rattle.std.specs.Prelude.{◌≡◌, [], get_or};
ghost use Rattle.records.specs.Roads.{strip_at, column_by};
ghost use Rattle.records_shapes.specs.Strips.{strip_of};

use crate::profiles::no_cubics;
use records::LentRoad;
use records::layout::{
    ABSENT_CODE, COLUMN_STRIDE, COLUMN_WORDS, COLUMNS_A_STRIP, CUBIC_BASE, RELATIVE_CODE,
    STRIP_STRIDE, STRIP_WORDS, STRIPS,
};
use records_cubic::Cubics;
use records_lent::word;
use std::marker::Model;

// A strip that is there: whether it stands on the inner one's edge, and its columns, which are found by its line when they are asked for.
#[derive(Drop)]
pub struct LentStrip<'w, 'a> {
    pub relative: bool,
    words: &'w [u16],
    numbers: &'a [f64],
    line: usize,
}

impl<'w, 'a> Model for LentStrip<'w, 'a> {
    ghost use Rattle.std.specs.Prelude.{◌<◌};
    ghost use Rattle.records.specs.Roads.{StripDef};
    ghost use Rattle.records_shapes.specs.Strips.{strip_def_in};

    ghost Value = { StripDef };

    ghost view = { λ strip. strip_def_in strip.words.now strip.numbers.now strip.relative strip.line };

    ghost invariant = { λ strip. strip.line < 4 };
}

impl<'w, 'a> LentStrip<'w, 'a> {
    // The cubics of a column: the width is the first, a term the one after its power. None past the last.
    pub fn column(&self, column: usize) -> Cubics<'a>
        ensures { result ≡ column_by self.now column }
    {
        let first = COLUMN_WORDS + self.line * STRIP_STRIDE;
        if column < COLUMNS_A_STRIP {
            let at = first + column * COLUMN_STRIDE;
            Cubics::of_range(self.words, at, self.numbers, CUBIC_BASE)
        } else {
            no_cubics()
        }
    }

    pub fn width(&self) -> Cubics<'a>
        ensures { result ≡ self.now.width }
    {
        self.column(0)
    }

    // The cubics of a term, by its power: a u8, so that its column fits whatever a caller asks.
    pub fn term(&self, power: u8) -> Cubics<'a>
        ensures { result ≡ get_or self.now.terms power [] }
    {
        self.column(usize::from(power) + 1)
    }
}

// The i-th strip (left inner, left outer, right inner, right outer), if it is there.
pub fn strip<'w, 'a>(road: &LentRoad<'w, 'a>, i: usize) -> Option<LentStrip<'w, 'a>>
    ensures { strip_of result ≡ strip_at road.now i }
{
    let words = road.words;
    if STRIPS <= i {
        return None;
    }
    let code = word(words, STRIP_WORDS + i * STRIP_STRIDE);
    let strip = LentStrip {
        relative: code == RELATIVE_CODE,
        words,
        numbers: road.numbers,
        line: i,
    };
    (code != ABSENT_CODE).then_some(strip)
}
