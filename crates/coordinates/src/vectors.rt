// Displacements by value, and what is done with places and displacements. Each operation is f32, rounded once.
ghost use Rattle.std.specs.Prelude.{◌≡◌};
ghost use Rattle.coordinates.specs.Vectors.{from_to, moved_by, sum_of, difference_of, scaled_by, dot_of, cross_of, length_of, unit_of, horizontal_of, left_normal_of, place_between, vector_between};

use arithmetic::root32;
use records::Point;
use std::ops::{Add, Mul, Sub};

// A displacement between places, or a direction: metres, or a number where it is a direction.
#[derive(Clone, Copy)]
pub struct Vector {
    pub x: f32,
    pub y: f32,
    pub z: f32,
}

// The operators have one shape and stand apart: no macro of this repository may write an impl, and one function over a closure would say in its contract what the closure gives for each of x, y and z, which is longer than these bodies.

// The place that v leads to.
impl Add<Vector> for Point {
    type Output = Point;

    ghost add_gives = { λ a v b. b ≡ moved_by a v };

    fn add(self, v: Vector) -> Point {
        Point {
            x: self.x + v.x,
            y: self.y + v.y,
            z: self.z + v.z,
        }
    }
}

impl Add for Vector {
    type Output = Vector;

    ghost add_gives = { λ a b sum. sum ≡ sum_of a b };

    fn add(self, b: Vector) -> Vector {
        Vector {
            x: self.x + b.x,
            y: self.y + b.y,
            z: self.z + b.z,
        }
    }
}

impl Sub for Vector {
    type Output = Vector;

    ghost sub_gives = { λ a b way. way ≡ difference_of a b };

    fn sub(self, b: Vector) -> Vector {
        Vector {
            x: self.x - b.x,
            y: self.y - b.y,
            z: self.z - b.z,
        }
    }
}

impl Mul<f32> for Vector {
    type Output = Vector;

    ghost mul_gives = { λ v k scaled. scaled ≡ scaled_by v k };

    fn mul(self, k: f32) -> Vector {
        Vector {
            x: self.x * k,
            y: self.y * k,
            z: self.z * k,
        }
    }
}

impl Vector {
    // No displacement.
    pub const ZERO: Vector = Vector {
        x: 0.0,
        y: 0.0,
        z: 0.0,
    };

    const UP: Vector = Vector {
        x: 0.0,
        y: 0.0,
        z: 1.0,
    };

    // The displacement from a to b. No `Sub` of Point: the type is another crate's, so the impl would be too.
    pub fn from_to(a: Point, b: Point) -> Vector
        ensures { result ≡ from_to a b }
    {
        Vector {
            x: b.x - a.x,
            y: b.y - a.y,
            z: b.z - a.z,
        }
    }

    #[tactic(auto, unfolding(crate::specs::Vectors::dot_of))]
    pub fn dot(self, b: Vector) -> f32
        ensures { result ≡ dot_of self b }
    {
        self.x * b.x + self.y * b.y + self.z * b.z
    }

    // The cross product, right-handed: of x and y it is z. Not one function with `Axis::cross` of surface_station, which differs in the width: the operators' bounds give a relation, `mul_gives`, and no function that a contract could name, so it takes a trait of products and differences with an impl for each width and both structs taken apart, sixty lines for these ten (tried: it proves).
    fn cross(self, b: Vector) -> Vector
        ensures { result ≡ cross_of self b }
    {
        Vector {
            x: self.y * b.z - self.z * b.y,
            y: self.z * b.x - self.x * b.z,
            z: self.x * b.y - self.y * b.x,
        }
    }

    // The root of the squares' sum: (3, 4, 0) gives 5.
    #[tactic(auto, unfolding(crate::specs::Vectors::length_of))]
    pub fn length(self) -> f32
        ensures { result ≡ length_of self }
    {
        root32(self.dot(self))
    }

    // The vector over its length, by one quotient; zero where the length is 0 or not finite.
    #[tactic(auto, using(crate::proofs::LengthLaws::positive_is), unfolding(crate::specs::Vectors::unit_of))]
    pub fn unit(self) -> Vector
        ensures { result ≡ unit_of self }
    {
        let len = self.length();
        if (0.0 < len) & len.is_finite() {
            return self * (1.0 / len);
        }
        Vector::ZERO
    }

    // The vector laid onto the ground plane.
    pub fn horizontal(self) -> Vector
        ensures { result ≡ horizontal_of self }
    {
        Vector { z: 0.0, ..self }
    }

    // The unit left-hand normal of a heading, about z up: of +x it is +y; zero where the heading has no horizontal extent.
    #[tactic(auto, unfolding(crate::specs::Vectors::left_normal_of))]
    pub fn left_normal(self) -> Vector
        ensures { result ≡ left_normal_of self }
    {
        Vector::UP.cross(self.horizontal()).unit()
    }
}

// The place t of the way from a to b; t is not clamped. Not one generic function with the next: the way between two places is no operator, so it would need a trait of its own.
pub fn place_between(a: Point, b: Point, t: f32) -> Point
    ensures { result ≡ place_between a b t }
{
    a + Vector::from_to(a, b) * t
}

// The displacement t of the way from a to b; t is not clamped.
pub fn vector_between(a: Vector, b: Vector, t: f32) -> Vector
    ensures { result ≡ vector_between a b t }
{
    a + (b - a) * t
}
