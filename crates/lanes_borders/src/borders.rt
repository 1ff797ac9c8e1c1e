// Where the lanes of a section lie across the road. A side is left or right of the center; its lanes count from the center outward.
// What stays the same along a side is `SideAt`; its sign and its metres into the section are any f64, so a border is worked out for every f64.
ghost use Rattle.std.specs.Prelude.{◌≡◌};
ghost use Rattle.records.specs.Active.{active_in};
ghost use Rattle.lanes_borders.specs.Borders.{border_width, width_of, borders_from, base_at, lanes_of, borders_of};

use crate::sides::SideAt;
use arithmetic_ranges::width_or_zero;
use records::{LanePlace, LentRoad};
use records_active::{active_cubic, value};
use records_lanes::LentLane;
use records_sections::lane_count;

// Where one lane lies across the road at one station: the t of its inner and outer border, and its width between them.
#[derive(Clone, Copy)]
pub struct LaneBorders {
    pub inner: f64,
    pub outer: f64,
    pub width: f64,
}

// The t of the center.
pub fn base_at(road: &LentRoad, s: f64) -> f64
    ensures { result ≡ base_at road.now s }
{
    value(&road.offsets(), s)
}

// How many lanes a section has, both sides.
pub fn section_lanes(road: &LentRoad, section: usize) -> usize
    ensures { result ≡ lanes_of road.now section }
{
    lane_count(road, section, false) + lane_count(road, section, true)
}

impl<'w, 'a> SideAt<'w, 'a> {
    // A border lane's width: from its inner border to the active record's t, 0 where none is active.
    fn border_width(&self, lane: &LentLane, inner: f64) -> f64
        ensures { result ≡ border_width lane.now self.now.sign inner self.now.into (active_in lane.now.extents self.now.into) }
    {
        match active_cubic(&lane.extents, self.into) {
            Some(border) => self.sign * (border.eval(self.into) - inner),
            None => 0.0,
        }
    }

    // The width of a lane from its inner border: the one way to a width.
    pub fn width(&self, lane: &LentLane, inner: f64) -> f64
        ensures { result ≡ width_of lane.now self.now.sign inner self.now.into }
    {
        let width = if lane.border {
            self.border_width(lane, inner)
        } else {
            value(&lane.extents, self.into)
        };
        width_or_zero(width)
    }

    // A lane's borders from its inner one: one step outward.
    pub fn borders(&self, lane: &LentLane, inner: f64) -> LaneBorders
        ensures { result ≡ borders_from lane.now self.now.sign inner self.now.into }
    {
        let width = self.width(lane, inner);
        LaneBorders {
            inner,
            outer: inner + self.sign * width,
            width,
        }
    }
}

// The borders at s of the lane at a place: where the lane before it ends, and its width from there. It answers for document 01's
// `side_borders`, lane by lane (docs/INSPECTION.md, row 102).
pub fn lane_borders(road: &LentRoad, place: LanePlace, s: f64) -> LaneBorders
    ensures { result ≡ borders_of road.now place.section s place.right place.k }
{
    let side = SideAt::new(road, place.section, place.right, s);
    side.border(place.k, side.outer_after(place.k))
}
