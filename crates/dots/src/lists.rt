// The dots on a line into a lent list.
ghost use Rattle.std.specs.Prelude.{◌≡◌, ◌≤◌, ◌+◌, true, cond, length, Some, None};
ghost use Rattle.refusals.specs.LentLists.{list_left};
ghost use Rattle.coordinates.specs.Points.{point_at};
ghost use Rattle.dots.specs.Along.{nth_station};
ghost use Rattle.dots.specs.Dots.{most_multiples, is_dotted, multiples_on, station_of_multiple, dots_to, dots_on, dots_fit, dot_by};
ghost use Rattle.dots.specs.Walks.{Stands};

use crate::arc_lengths::{along, nth_station};
use crate::multiples::{MOST_MULTIPLES, multiple, multiples};
use crate::stations::Walk;
use records::LentRoad;
use records_marks::covered;
use tracks::Track;

// The kind of a span that is dotted.
const DOTTED_KIND: usize = 1;

// A line along a lane of a section, with a road station for each of its points, and how far apart its dots are. The lane is named by its rank in the section, left ones outward, then right ones, as a mark names it.
#[derive(Drop)]
pub struct DotLine<'r, 'w, 'a> {
    pub road: &'r LentRoad<'w, 'a>,
    pub section: usize,
    pub rank: usize,
    pub points: &'r Track<'r>,
    pub stations: &'r [f64],
    pub spacing: f32,
}

impl<'r, 'w, 'a> DotLine<'r, 'w, 'a> {
    // How many multiples of the spacing the line has, up to one over the most.
    fn multiple_count(&self) -> usize
        ensures value { result ≡ multiples_on (point_at self.now.points.now) (nth_station self.now.stations.now) (length self.now.stations.now) self.now.spacing }
        ensures small { result ≤ most_multiples + 1 }
    {
        let last = nth_station(self.stations, self.stations.len().saturating_sub(1));
        multiples(self.spacing, along(self.points, self.stations, last))
    }

    // A walk at the line's start: what the passes over the multiples begin with.
    fn walk(&self) -> Walk
        ensures { Stands (point_at self.now.points.now) (length self.now.stations.now) result }
    {
        Walk::start(self.points, self.stations.len(), 0.0)
    }

    // The dot at the k-th multiple, where one is kept: where a span of kind 1 covers the lane.
    #[tactic(auto, using(crate::proofs::WalkSteps::dot_is))]
    fn dot(&self, walk: &mut Walk, k: usize) -> Option<f64>
        requires { Stands (point_at self.now.points.now) (length self.now.stations.now) walk.old × (k ≤ most_multiples + 1) }
        ensures stands { Stands (point_at self.now.points.now) (length self.now.stations.now) walk.new }
        ensures value { result ≡ dot_by (is_dotted self.now.road.now self.now.section self.now.rank) (station_of_multiple (point_at self.now.points.now) (nth_station self.now.stations.now) (length self.now.stations.now) self.now.spacing k) }
    {
        let arc = multiple(self.spacing, k);
        *walk = walk.moved_to(self.points, self.stations.len(), arc);
        let s = walk.station(self.points, self.stations);
        covered(self.road, self.section, self.rank, DOTTED_KIND, s).then_some(s)
    }

    // How many of the first multiples have a dot that is kept.
    #[tactic(auto, using(crate::proofs::ListSteps::counting))]
    fn kept(&self, multiples: usize) -> usize
        requires { multiples ≤ most_multiples + 1 }
        ensures { result ≡ length (dots_to self.now.road.now self.now.section self.now.rank (point_at self.now.points.now) (nth_station self.now.stations.now) (length self.now.stations.now) self.now.spacing multiples) }
    {
        let mut walk = self.walk();
        let mut kept = 0;
        for k in 0..multiples {
            kept += usize::from(self.dot(&mut walk, k).is_some());
        }
        kept
    }

    // Writes the dots of the first multiples that are kept.
    #[tactic(auto, using(crate::proofs::ListSteps::writing))]
    fn write(&self, multiples: usize, list: &mut [f64])
        requires { (multiples ≤ most_multiples + 1) × (length (dots_to self.now.road.now self.now.section self.now.rank (point_at self.now.points.now) (nth_station self.now.stations.now) (length self.now.stations.now) self.now.spacing multiples) ≤ length list.old) }
        ensures { list.new ≡ list_left true (dots_to self.now.road.now self.now.section self.now.rank (point_at self.now.points.now) (nth_station self.now.stations.now) (length self.now.stations.now) self.now.spacing multiples) list.old }
    {
        let mut walk = self.walk();
        let mut kept = 0;
        for k in 0..multiples {
            if let Some(s) = self.dot(&mut walk, k) {
                list[kept] = s;
                kept += 1;
            }
        }
    }

    // Writes the dots that are kept and answers how many; none where the line has over 65,536 multiples or the list has no room for those kept, and then it stays as it was.
    pub fn list_dots(&self, list: &mut [f64]) -> Option<usize>
        ensures value { result ≡ cond (dots_fit self.now.road.now self.now.section self.now.rank (point_at self.now.points.now) (nth_station self.now.stations.now) (length self.now.stations.now) self.now.spacing (length list.old)) (Some (length (dots_on self.now.road.now self.now.section self.now.rank (point_at self.now.points.now) (nth_station self.now.stations.now) (length self.now.stations.now) self.now.spacing))) None }
        ensures list_after { list.new ≡ list_left (dots_fit self.now.road.now self.now.section self.now.rank (point_at self.now.points.now) (nth_station self.now.stations.now) (length self.now.stations.now) self.now.spacing (length list.old)) (dots_on self.now.road.now self.now.section self.now.rank (point_at self.now.points.now) (nth_station self.now.stations.now) (length self.now.stations.now) self.now.spacing) list.old }
    {
        let multiples = self.multiple_count();
        if MOST_MULTIPLES < multiples {
            return None;
        }
        let kept = self.kept(multiples);
        if list.len() < kept {
            return None;
        }
        self.write(multiples, list);
        Some(kept)
    }
}
