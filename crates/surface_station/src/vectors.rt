// The cross product, and a vector brought to length 1.
ghost use Rattle.std.specs.Prelude.{◌≡◌};
ghost use Rattle.surface_station.specs.Axes.{cross_of, unit_of};

use crate::axis::Axis;

impl Axis {
    // The cross product with w: x and y give z. Beside `Vector::cross` of coordinates, whose numbers are f32.
    #[tactic(auto, unfolding(crate::specs::Axes::cross_of))]
    pub fn cross(self, w: Axis) -> Axis
        ensures { result ≡ cross_of self w }
    {
        Axis {
            x: self.y * w.z - self.z * w.y,
            y: self.z * w.x - self.x * w.z,
            z: self.x * w.y - self.y * w.x,
        }
    }

    // The vector over its length, by three quotients; NaNs for a vector of zeros. (3, 4, 0) gives (0.6, 0.8, 0).
    #[tactic(auto, unfolding(crate::specs::Axes::unit_of))]
    pub fn unit(self) -> Axis
        ensures { result ≡ unit_of self }
    {
        let length = arithmetic::root(self.x * self.x + self.y * self.y + self.z * self.z);
        Axis {
            x: self.x / length,
            y: self.y / length,
            z: self.z / length,
        }
    }
}
