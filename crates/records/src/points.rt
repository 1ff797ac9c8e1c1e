// The records of a road by value, and the two points of the answers.

// A place in the world: right-handed, z up, metres.
#[derive(Clone, Copy)]
pub struct Point {
    pub x: f32,
    pub y: f32,
    pub z: f32,
}

// The reference line at one station: elevation z with its rate along s, superelevation with its rate along s.
#[derive(Clone, Copy)]
pub struct RefPoint {
    pub s: f64,
    pub x: f64,
    pub y: f64,
    pub heading: f64,
    pub z: f64,
    pub grade: f64,
    pub bank: f64,
    pub bank_rate: f64,
}

// An arc of at most this curvature is a line.
pub const STRAIGHT_CURVATURE: f64 = 1e-9;

// The shape of a geometry; an arc carries its curvature, a spiral its curvatures at the start and at the end.
#[derive(Clone, Copy)]
pub enum GeomShape {
    Line,
    Arc(f64),
    Spiral(f64, f64),
}

// One geometry of the reference line: where it starts, its heading there, its length and its shape.
#[derive(Clone, Copy)]
pub struct GeomRec {
    pub s: f64,
    pub x: f64,
    pub y: f64,
    pub hdg: f64,
    pub length: f64,
    pub shape: GeomShape,
}

// A lane's height off the road at its inner and outer border, from s_offset metres into its section.
#[derive(Clone, Copy)]
pub struct HeightDef {
    pub s_offset: f64,
    pub inner: f64,
    pub outer: f64,
}

// A span of paint on a lane of a section: the place of the lane among those of its section, left ones outward, then right ones; its kind; where it
// starts and ends, in metres into the section.
#[derive(Clone, Copy)]
pub struct Mark {
    pub lane: usize,
    pub kind: usize,
    pub start: f64,
    pub end: f64,
}

// A lane by its section, its side (right of the center or left) and its place there, from the center outward. A side is a flag, since the definitions
// choose by it, `cond right section.right section.left`: an enum would be turned into that flag in each contract. They take section, side and place one by
// one, since the laws go by induction over the place and by cases of the side, for every section.
#[derive(Clone, Copy)]
pub struct LanePlace {
    pub section: usize,
    pub right: bool,
    pub k: usize,
}
