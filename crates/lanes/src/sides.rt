// A side of the road by the flag `right`: right of the center, or left of it.
ghost use Rattle.std.specs.Prelude.{◌≡◌};
ghost use Rattle.lanes.specs.Sides.{sign_of};

// Which way a side goes from the center: the left toward plus t.
pub fn sign_of(right: bool) -> f64
    ensures { result ≡ sign_of right }
{
    if right { -1.0 } else { 1.0 }
}
