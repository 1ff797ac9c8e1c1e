// The sine pair in one call, as the port takes it.
ghost use Rattle.std.specs.Prelude.{◌≡◌};
ghost use Rattle.arithmetic_sine.specs.Sine.{sine_of, cosine_of};

#[unsafe(no_mangle)]
pub extern "C" fn probe_sin_cos(h: f64, sin: &mut f64, cos: &mut f64)
    ensures sin_after { sin.new ≡ sine_of h }
    ensures cos_after { cos.new ≡ cosine_of h }
{
    let pair = arithmetic_sine::sin_cos(h);
    *sin = pair.sin;
    *cos = pair.cos;
}
