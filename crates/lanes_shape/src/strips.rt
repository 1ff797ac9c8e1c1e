// The cross section: up to two strips each side of the reference line, each a cubic across whose four terms are cubics along the road.
ghost use Rattle.std.specs.Prelude.{◌≡◌};
ghost use Rattle.records.specs.Active.{active_in};
ghost use Rattle.records.specs.Roads.{strip_at};
ghost use Rattle.records_shapes.specs.Strips.{strip_of};
ghost use Rattle.lanes.specs.Lateral.{strip_height, past_width, by_width, by_side, is_left, cross_height};
ghost use Rattle.lanes.specs.Sides.{sign_of, inner_of, outer_of};

use arithmetic_ranges::{abs, width_or_zero};
use lanes::sign_of;
use records::LentRoad;
use records_active::{active_cubic, value};
use records_shapes::{LentStrip, strip};

// Nearer the ridge than this the side is the one that toward points to.
const RIDGE_MARGIN: f64 = 1e-9;

// The number of a side's inner strip, among left inner, left outer, right inner, right outer.
fn inner_of(right: bool) -> usize
    ensures { result ≡ inner_of right }
{
    if right { 2 } else { 0 }
}

// The number of a side's outer strip.
fn outer_of(right: bool) -> usize
    ensures { result ≡ outer_of right }
{
    inner_of(right) + 1
}

// The height of a strip, dt across it.
fn strip_height(strip: &LentStrip, s: f64, dt: f64) -> f64
    ensures { result ≡ strip_height strip.now s dt }
{
    let c3 = value(&strip.term(3), s);
    let c2 = value(&strip.term(2), s);
    let c1 = value(&strip.term(1), s);
    let c0 = value(&strip.term(0), s);
    // from 0.0 on, as the definition: a sum of -0 alone is 0; written out, since `horner(dt, 0.0, &[c3, c2, c1, c0])` names the same five in the same
    // order, and this crate, which asks for no sine, would stand on arithmetic_sine for it
    (((0.0 * dt + c3) * dt + c2) * dt + c1) * dt + c0
}

// One side of the cross section at a station: its strips, and which way it goes.
#[derive(Drop)]
struct CrossSide<'a> {
    inner: LentStrip<'a, 'a>,
    outer: Option<LentStrip<'a, 'a>>,
    sign: f64,
    s: f64,
}

impl<'a> CrossSide<'a> {
    // The height at t where the inner strip is w wide: past the width that of the outer strip, if there is one, from the inner one's edge on.
    fn past_width(&self, t: f64, w: f64) -> f64
        ensures { result ≡ past_width self.now.inner (strip_of self.now.outer) self.now.s t self.now.sign w }
    {
        let edge = self.sign * w;
        match &self.outer {
            Some(outer) if w < self.sign * t => {
                // 0.0 in place of the inner strip's height: -0 comes out as 0
                let base = if outer.relative {
                    strip_height(&self.inner, self.s, edge)
                } else {
                    0.0
                };
                base + strip_height(outer, self.s, t - edge)
            }
            _ => strip_height(&self.inner, self.s, t),
        }
    }

    // The height at t.
    fn height(&self, t: f64) -> f64
        ensures { result ≡ by_width self.now.inner (strip_of self.now.outer) self.now.s t self.now.sign (active_in self.now.inner.width self.now.s) }
    {
        match active_cubic(&self.inner.width(), self.s) {
            Some(width) => self.past_width(t, width_or_zero(width.eval(self.s))),
            None => strip_height(&self.inner, self.s, t),
        }
    }
}

// The height at t of a side, 0 where there is no inner strip.
fn side_height(road: &LentRoad, right: bool, s: f64, t: f64) -> f64
    ensures { result ≡ by_side (strip_at road.now (inner_of right)) (strip_at road.now (outer_of right)) s t (sign_of right) }
{
    let Some(inner) = strip(road, inner_of(right)) else {
        return 0.0;
    };
    let side = CrossSide {
        inner,
        outer: strip(road, outer_of(right)),
        sign: sign_of(right),
        s,
    };
    side.height(t)
}

// Whether t lies left of the ridge; on it, within a nanometre, the side that toward points to.
fn is_left(t: f64, toward: f64) -> bool
    ensures { result ≡ is_left t toward }
{
    if abs(t) < RIDGE_MARGIN {
        0.0 < toward
    } else {
        0.0 < t
    }
}

// The cross section's height at s and t; 0 on a side with no strip. toward is a number and no flag, since the function answers for every f64.
pub fn cross_height(road: &LentRoad, s: f64, t: f64, toward: f64) -> f64
    ensures { result ≡ cross_height road.now s t toward }
{
    let shifted = t - value(&road.tshifts(), s);
    let right = !is_left(shifted, toward);
    side_height(road, right, s, shifted)
}
