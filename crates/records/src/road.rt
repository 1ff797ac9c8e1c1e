// A road in two lent slices: words has the counts, codes and ranges, numbers the f64 columns. Where each stands is said in layout.rt,
// for the proofs in specs/Layout.antt, and in docs/MEMORY.md for whoever lends a road. Nothing here trusts the slices: what is not there is empty, NaN or 0.
ghost use Rattle.std.specs.Prelude.{◌≡◌, ◌<◌, get_or, length};
ghost use Rattle.records.specs.Roads.{cubics_in, road_of};

use crate::layout::{
    BANK_BASE, BANK_COUNT_AT, ELEV_BASE, ELEV_COUNT_AT, GEOM_COUNT_AT, LENGTH_PLACE, OFFSET_BASE,
    OFFSET_COUNT_AT, TSHIFT_BASE, TSHIFT_COUNT_AT,
};
use records_cubic::Cubics;
use records_lent::{number, word};
use std::marker::Model;

// A contract sees the road that the slices stand for.
#[derive(Clone, Drop)]
pub struct LentRoad<'w, 'a> {
    pub words: &'w [u16],
    pub numbers: &'a [f64],
}

impl<'w, 'a> Model for LentRoad<'w, 'a> {
    ghost use Rattle.records.specs.Roads.{Road, road_of};

    ghost Value = { Road };

    ghost view = { λ lent. road_of lent.words.now lent.numbers.now };
}

// A flat table of cubics, from its base on. It takes the slices, since it says where in them the table stands, and a road's model has no places.
fn flat<'a>(words: &[u16], numbers: &'a [f64], base: usize, count_at: usize) -> Cubics<'a>
    ensures { result ≡ cubics_in words.now numbers.now base 0 (get_or words.now count_at 0) }
{
    Cubics::of_table(numbers, base, 0, word(words, count_at))
}

impl<'w, 'a> LentRoad<'w, 'a> {
    pub fn new(words: &'w [u16], numbers: &'a [f64]) -> LentRoad<'w, 'a>
        ensures { result ≡ road_of words.now numbers.now }
    {
        LentRoad { words, numbers }
    }

    pub fn length(&self) -> f64
        ensures { result ≡ self.now.length }
    {
        number(self.numbers, LENGTH_PLACE)
    }

    pub fn geom_count(&self) -> usize
        ensures value { result ≡ length self.now.geoms }
        ensures small { result < 65536 }
    {
        word(self.words, GEOM_COUNT_AT)
    }

    // ---- the flat tables
    pub fn elevations(&self) -> Cubics<'a>
        ensures { result ≡ self.now.elevations }
    {
        flat(self.words, self.numbers, ELEV_BASE, ELEV_COUNT_AT)
    }

    pub fn superelevations(&self) -> Cubics<'a>
        ensures { result ≡ self.now.superelevations }
    {
        flat(self.words, self.numbers, BANK_BASE, BANK_COUNT_AT)
    }

    pub fn offsets(&self) -> Cubics<'a>
        ensures { result ≡ self.now.offsets }
    {
        flat(self.words, self.numbers, OFFSET_BASE, OFFSET_COUNT_AT)
    }

    pub fn tshifts(&self) -> Cubics<'a>
        ensures { result ≡ self.now.tshifts }
    {
        flat(self.words, self.numbers, TSHIFT_BASE, TSHIFT_COUNT_AT)
    }
}
