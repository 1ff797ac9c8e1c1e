// A pose with the sine and the cosine of its heading, which a line and an arc have at hand, and axes and points beside the pose want next.
ghost use Rattle.std.specs.Prelude.{◌≡◌};
ghost use Rattle.line_pose.specs.Bearings.{bearing_of};

use arithmetic_sine::{SinCos, sin_cos};
use line_samples::Pose;

#[derive(Clone, Copy)]
pub struct Bearing {
    pub pose: Pose,
    pub turn: SinCos,
}

// For a pose whose heading's sine and cosine are not at hand.
impl From<Pose> for Bearing {
    ghost from_gives = { λ p at. at ≡ bearing_of p };

    fn from(pose: Pose) -> Bearing {
        let turn = sin_cos(pose.heading);
        Bearing { pose, turn }
    }
}
