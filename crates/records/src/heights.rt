// A lane's heights in lent numbers.
use crate::points::HeightDef;
use records_lent::{Record, Records, number};

impl Record for HeightDef {
    ghost use Rattle.std.proofs.Common.{rules};
    ghost use Rattle.records_lent.proofs.TableLaws.{span-first, span-at};
    ghost use Rattle.records.specs.Layout.{height_stride};
    ghost use Rattle.records.specs.Roads.{height_def_from, no_height};

    ghost from = { height_def_from };

    ghost none = { no_height };

    ghost STRIDE = { height_stride };

    const STRIDE: usize = 3;

    ghost stride_positive = { Prim.search rules };

    ghost own_numbers = { Prim.search (rules, span-first, span-at) };

    fn from_part(numbers: &[f64]) -> Self {
        HeightDef {
            s_offset: number(numbers, 0),
            inner: number(numbers, 1),
            outer: number(numbers, 2),
        }
    }

    fn none() -> Self {
        Self::from_part(&[])
    }
}

// Heights as a part of the lent numbers holds them.
pub type Heights<'a> = Records<'a, HeightDef>;
