// The lanes of a side as they lie at a station.
ghost use Rattle.std.specs.Prelude.{◌≡◌, true, false, get_or};
ghost use Rattle.records.specs.Roads.{no_lane};
ghost use Rattle.lanes_borders.specs.Borders.{outer_after, borders_from};
ghost use Rattle.lanes_borders.specs.Sides.{side_at};

use crate::borders::{LaneBorders, base_at};
use lanes::sign_of;
use records::LentRoad;
use records_lanes::{LentSide, side_lanes};
use records_sections::section_start;

// A side of a section at a station: its lanes, how many metres into the section the station is, which way the lanes stack, and the t of the center,
// from which they do.
#[derive(Drop)]
pub struct SideAt<'w, 'a> {
    pub lanes: LentSide<'w, 'a>,
    pub into: f64,
    pub sign: f64,
    pub base: f64,
}

impl<'w, 'a> SideAt<'w, 'a> {
    pub fn new(road: &LentRoad<'w, 'a>, section: usize, right: bool, s: f64) -> SideAt<'w, 'a>
        ensures { result ≡ side_at road.now section right s }
    {
        SideAt {
            lanes: side_lanes(road, section, right),
            into: s - section_start(road, section),
            sign: sign_of(right),
            base: base_at(road, s),
        }
    }

    // Both sides, the left one first: the center and the section's start are read once.
    pub fn both(road: &LentRoad<'w, 'a>, section: usize, s: f64) -> (SideAt<'w, 'a>, SideAt<'w, 'a>)
        ensures left { result.0 ≡ side_at road.now section false s }
        ensures right { result.1 ≡ side_at road.now section true s }
    {
        let left = SideAt::new(road, section, false, s);
        let right = SideAt {
            lanes: side_lanes(road, section, true),
            into: left.into,
            sign: sign_of(true),
            base: left.base,
        };
        (left, right)
    }

    // The k-th lane's borders from its inner one: one step outward, for callers that go over the lanes.
    pub fn border(&self, k: usize, inner: f64) -> LaneBorders
        ensures { result ≡ borders_from (get_or self.now.lanes k no_lane) self.now.sign inner self.now.into }
    {
        self.borders(&self.lanes.get(k), inner)
    }

    // The outer border of the first n lanes, the center where n is 0.
    pub fn outer_after(&self, n: usize) -> f64
        ensures { result ≡ outer_after self.now.lanes self.now.sign self.now.base self.now.into n }
    {
        let mut t = self.base;
        for k in 0..n {
            t = self.border(k, t).outer;
        }
        t
    }
}
