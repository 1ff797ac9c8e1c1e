// A geometry by value, and whether the columns that its kind does not use are zero.
ghost use Rattle.std.specs.Prelude.{◌≡◌};
ghost use Rattle.records.specs.Roads.{geom_at, geom_shape_of, geom_from, unused_zero};

use records::layout::{ARC_CODE, GEOM_BASE, GEOM_STRIDE, KIND_WORDS, LINE_CODE, SPIRAL_CODE};
use records::{GeomRec, GeomShape, LentRoad};
use records_lent::{number, part, word};

// The curvature columns among a geometry's numbers.
const K0_COLUMN: usize = 5;

const K1_COLUMN: usize = 6;

// The shape of a geometry by the code of its kind, a number as the C interface lends it, and its curvature columns.
fn shape_of(code: usize, k0: f64, k1: f64) -> GeomShape
    ensures { result ≡ geom_shape_of code k0 k1 }
{
    match code {
        ARC_CODE => GeomShape::Arc(k0),
        SPIRAL_CODE => GeomShape::Spiral(k0, k1),
        _ => GeomShape::Line,
    }
}

// A geometry out of its seven numbers and the code of its kind.
fn geom_from(numbers: &[f64], code: usize) -> GeomRec
    ensures { result ≡ geom_from numbers.now code }
{
    let shape = shape_of(code, number(numbers, K0_COLUMN), number(numbers, K1_COLUMN));
    GeomRec {
        s: number(numbers, 0),
        x: number(numbers, 1),
        y: number(numbers, 2),
        hdg: number(numbers, 3),
        length: number(numbers, 4),
        shape,
    }
}

// The i-th geometry; a line of NaNs where there is none.
pub fn geom(road: &LentRoad, i: usize) -> GeomRec
    ensures { result ≡ geom_at road.now i }
{
    if i < road.geom_count() {
        geom_from(
            part(road.numbers, GEOM_BASE + i * GEOM_STRIDE, GEOM_STRIDE),
            word(road.words, KIND_WORDS + i),
        )
    } else {
        geom_from(&[], LINE_CODE)
    }
}

// Whether the curvature columns that the i-th geometry's kind does not use are zero.
pub fn unused_zero(road: &LentRoad, i: usize) -> bool
    ensures { result ≡ unused_zero road.now i }
{
    if i < road.geom_count() {
        let columns = part(road.numbers, GEOM_BASE + i * GEOM_STRIDE, GEOM_STRIDE);
        let (k0, k1) = (number(columns, K0_COLUMN), number(columns, K1_COLUMN));
        match shape_of(word(road.words, KIND_WORDS + i), k0, k1) {
            GeomShape::Line => (k0 == 0.0) & (k1 == 0.0),
            GeomShape::Arc(_) => k1 == 0.0,
            GeomShape::Spiral(..) => true,
        }
    } else {
        true
    }
}
