// What the reference line is made of beside its records: a spiral's samples, the spiral that they are made from, and a pose.
ghost use Rattle.std.specs.Prelude.{◌≡◌, [], ◌∷◌};
ghost use Rattle.line_samples.specs.Samples.{flat};

use records::GeomRec;

// One sample: the distance into the spiral, the place and the heading there.
#[derive(Clone, Copy)]
pub struct Sample {
    pub distance: f64,
    pub x: f64,
    pub y: f64,
    pub heading: f64,
}

// The numbers that a sample takes in a lent slice: the C interface lends samples flat. They are no `records_lent::Records`, since a record that is cut off is none and a sample keeps the numbers that are there.
pub const SAMPLE_STRIDE: usize = 4;

// The four numbers, as a lent slice holds them.
impl From<Sample> for [f64; SAMPLE_STRIDE] {
    ghost from_gives = { λ p xs. xs ≡ flat (p ∷ []) };

    #[tactic(auto, unfolding(crate::specs::Samples::flat))]
    fn from(p: Sample) -> [f64; SAMPLE_STRIDE] {
        [p.distance, p.x, p.y, p.heading]
    }
}

// A geometry that is a spiral, with the curvatures at its ends.
#[derive(Clone, Copy)]
pub struct Spiral {
    pub geom: GeomRec,
    pub k0: f64,
    pub k1: f64,
}

// A place on the reference line and the heading there.
#[derive(Clone, Copy)]
pub struct Pose {
    pub x: f64,
    pub y: f64,
    pub heading: f64,
}
