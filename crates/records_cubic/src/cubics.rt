// A cubic along the road or across it, from its own start; and a list of cubics in lent numbers.
ghost use Rattle.std.specs.Prelude.{◌≡◌};
ghost use Rattle.records_cubic.specs.Cubics.{eval_at, slope_at};

use records_lent::{Record, Records, number};

#[derive(Clone, Copy)]
pub struct Cubic {
    pub start: f64,
    pub a: f64,
    pub b: f64,
    pub c: f64,
    pub d: f64,
}

impl Cubic {
    // The value at s.
    pub fn eval(self, s: f64) -> f64
        ensures { result ≡ eval_at self s }
    {
        let ds = s - self.start;
        self.a + self.b * ds + self.c * ds * ds + self.d * ds * ds * ds
    }

    // The rate of change at s.
    pub fn slope(self, s: f64) -> f64
        ensures { result ≡ slope_at self s }
    {
        let ds = s - self.start;
        self.b + 2.0 * self.c * ds + 3.0 * self.d * ds * ds
    }
}

impl Record for Cubic {
    ghost use Rattle.std.proofs.Common.{rules};
    ghost use Rattle.records_lent.proofs.TableLaws.{span-first, span-at};
    ghost use Rattle.records_cubic.specs.Cubics.{cubic_from, no_cubic, cubic_stride};

    ghost from = { cubic_from };

    ghost none = { no_cubic };

    ghost STRIDE = { cubic_stride };

    const STRIDE: usize = 5;

    ghost stride_positive = { Prim.search rules };

    ghost own_numbers = { Prim.search (rules, span-first, span-at) };

    fn from_part(numbers: &[f64]) -> Self {
        Cubic {
            start: number(numbers, 0),
            a: number(numbers, 1),
            b: number(numbers, 2),
            c: number(numbers, 3),
            d: number(numbers, 4),
        }
    }

    fn none() -> Self {
        Self::from_part(&[])
    }
}

// Cubics as a part of the lent numbers holds them.
pub type Cubics<'a> = Records<'a, Cubic>;
