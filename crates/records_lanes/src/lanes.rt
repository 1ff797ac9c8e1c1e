// The lanes of a section in the lent words and numbers. Where each table stands is said in layout.rt and specs/Layout.antt of crate records, and in
// docs/MEMORY.md for whoever lends a road. Nothing here trusts the slices: what is not there is empty, NaN or 0.
use records::Heights;
use records::layout::{
    BORDER_CODE, EXTENT_BASE, EXTENT_WORDS, HEIGHT_BASE, HEIGHT_WORDS, LANE_STRIDE, LANE_WORDS,
    LEVEL_CODE, LEVEL_WORDS,
};
use records_cubic::Cubics;
use records_lent::{Line, word};
use std::marker::Model;

// A lane with its widths, or its borders in their place, and its heights. Which of the two is a flag, as in the definitions' `Lane`, whose extents are
// one list: an enum over them would be taken apart at each use of the list.
#[derive(Drop)]
pub struct LentLane<'a> {
    pub border: bool,
    pub level: bool,
    pub extents: Cubics<'a>,
    pub heights: Heights<'a>,
}

impl<'a> Model for LentLane<'a> {
    ghost use Rattle.records.specs.Roads.{Lane};

    ghost Value = { Lane };

    ghost view = { λ lane. record { border = lane.border; level = lane.level; extents = lane.extents; heights = lane.heights } };
}

impl<'a> Line<&'a [f64]> for LentLane<'a> {
    ghost use Rattle.std.specs.Prelude.{◌≡◌};
    ghost use Rattle.records.specs.Roads.{lane_in, no_lane};

    ghost at = { λ words numbers line. lane_in words numbers.now line };

    ghost none = { no_lane };

    #[tactic(auto, unfolding(records_cubic::specs::Cubics::cubics_of, records::specs::Roads::heights_of, records::specs::Roads::lane_in))]
    fn at(words: &[u16], numbers: &'a [f64], line: u32) -> Self {
        let at = line as usize * LANE_STRIDE;
        LentLane {
            border: word(words, LANE_WORDS + at) == BORDER_CODE,
            level: word(words, LEVEL_WORDS + at) == LEVEL_CODE,
            extents: Cubics::of_range(words, EXTENT_WORDS + at, numbers, EXTENT_BASE),
            heights: Heights::of_range(words, HEIGHT_WORDS + at, numbers, HEIGHT_BASE),
        }
    }

    #[tactic(auto, unfolding(records_lent::specs::Lists::tabulate))]
    fn none() -> Self
        ensures { result ≡ no_lane }
    {
        LentLane {
            border: false,
            level: false,
            extents: Cubics::new(&[]),
            heights: Heights::new(&[]),
        }
    }
}
