// A lane's height off the road at its inner and outer border.
ghost use Rattle.std.specs.Prelude.{◌≡◌};

use records::HeightDef;

#[derive(Clone, Copy)]
pub struct BorderHeights {
    pub inner: f64,
    pub outer: f64,
}

// One height on its own, held from its place on.
impl From<HeightDef> for BorderHeights {
    ghost use Rattle.lanes.specs.Lateral.{height_held};

    ghost from_gives = { λ h held. held ≡ height_held h };

    fn from(h: HeightDef) -> BorderHeights {
        BorderHeights {
            inner: h.inner,
            outer: h.outer,
        }
    }
}
