// How high the lanes of a section stand off the road at their borders.
// tangent is that of the road's bank, by which a level lane is turned back; every f64 is answered for.
ghost use Rattle.std.specs.Prelude.{◌≡◌, false, ◌||◌, get_or, Float};
ghost use Rattle.records.specs.Roads.{no_lane};
ghost use Rattle.lanes.specs.Lateral.{height_toward};
ghost use Rattle.lanes_heights.specs.Heights.{level_up_to, level_heights, across_from, across_at};

use crate::across::Across;
use crate::own_heights::height_at;
use lanes::BorderHeights;
use lanes_borders::{LaneBorders, SideAt};
use lanes_shape::height_toward;
use records::{LanePlace, LentRoad};
use records_lanes::{LentLane, LentSide};

// Where the lanes inside a place end: the t of the outer border, the height there, and whether a lane so far is level.
#[derive(Clone, Copy)]
struct Edge {
    t: f64,
    height: f64,
    level: bool,
}

// The lane between two borders with a height at each.
fn across_of(b: LaneBorders, h: BorderHeights) -> Across
    ensures { result ≡ record { inner_t = b.inner; outer_t = b.outer; inner_height = h.inner; outer_height = h.outer } }
{
    Across {
        inner_t: b.inner,
        outer_t: b.outer,
        inner_height: h.inner,
        outer_height: h.outer,
    }
}

// One side of a section at the station s of a road.
#[derive(Clone, Copy)]
struct SideHeights<'r, 'w, 'a> {
    road: &'r LentRoad<'w, 'a>,
    side: &'r SideAt<'w, 'a>,
    s: f64,
    tangent: f64,
}

impl<'r, 'w, 'a> SideHeights<'r, 'w, 'a> {
    // A level lane's heights, on top of the height at which its inner neighbour ends.
    fn level_heights(&self, own: BorderHeights, foot: f64, width: f64) -> BorderHeights
        ensures { result ≡ level_heights own foot self.now.side.now.sign width self.now.tangent }
    {
        BorderHeights {
            inner: foot + own.inner,
            outer: foot - self.side.sign * width * self.tangent + own.outer,
        }
    }

    // The road's height at t: on the ridge that of this side.
    fn road_height(&self, t: f64) -> f64
        ensures { result ≡ height_toward self.now.road.now self.now.s t self.now.side.now.sign }
    {
        height_toward(self.road, self.s, t, self.side.sign)
    }

    // Any other lane across, from its inner border on: its heights are on top of the road's, and its neighbours' don't count.
    fn tilted(&self, lane: &LentLane, inner: f64) -> Across
        ensures { (foot : Float) → result ≡ across_from self.now.road.now self.now.s self.now.side.now self.now.tangent lane.now inner foot false }
    {
        let b = self.side.borders(lane, inner);
        let own = height_at(&lane.heights, self.side.into);
        let h = BorderHeights {
            inner: own.inner + self.road_height(b.inner),
            outer: own.outer + self.road_height(b.outer),
        };
        across_of(b, h)
    }

    // A lane across from where its inner neighbour ends.
    fn across(&self, lane: &LentLane, edge: Edge) -> Across
        ensures { result ≡ across_from self.now.road.now self.now.s self.now.side.now self.now.tangent lane.now edge.t edge.height edge.level }
    {
        if edge.level {
            let b = self.side.borders(lane, edge.t);
            let own = height_at(&lane.heights, self.side.into);
            across_of(b, self.level_heights(own, edge.height, b.width))
        } else {
            self.tilted(lane, edge.t)
        }
    }

    // The k-th lane across from the edge of the lanes inside it, and the edge moved past it. Level holds from its lane outward.
    fn step(&self, k: usize, edge: &mut Edge) -> Across
        ensures across { result ≡ across_from self.now.road.now self.now.s self.now.side.now self.now.tangent (get_or self.now.side.now.lanes k no_lane) edge.old.t edge.old.height (edge.old.level || (get_or self.now.side.now.lanes k no_lane).level) }
        ensures edge_after { edge.new ≡ record { t = result.outer_t; height = result.outer_height; level = edge.old.level || (get_or self.now.side.now.lanes k no_lane).level } }
    {
        let lane = self.side.lanes.get(k);
        edge.level |= lane.level;
        let across = self.across(&lane, *edge);
        edge.t = across.outer_t;
        edge.height = across.outer_height;
        across
    }
}

// Whether the k-th lane or one inside it is level.
fn level_up_to(lanes: &LentSide, k: usize) -> bool
    ensures { result ≡ level_up_to lanes.now k }
{
    // the k-th apart: k + 1 may be no usize
    lanes.iter().take(k).any(|lane| lane.level) | lanes.get(k).level
}

// A lane across the road at s. A level lane stands on its inner neighbour: where there is one, every lane inside counts.
pub fn lane_across(road: &LentRoad, place: LanePlace, s: f64, tangent: f64) -> Across
    ensures { result ≡ across_at road.now place.section s tangent place.right place.k }
{
    let side = SideAt::new(road, place.section, place.right, s);
    let heights = SideHeights {
        road,
        side: &side,
        s,
        tangent,
    };
    if !level_up_to(&side.lanes, place.k) {
        let lane = side.lanes.get(place.k);
        return heights.tilted(&lane, side.outer_after(place.k));
    }
    let mut edge = Edge {
        t: side.base,
        height: heights.road_height(side.base),
        level: false,
    };
    for k in 0..place.k {
        heights.step(k, &mut edge);
    }
    heights.step(place.k, &mut edge)
}
