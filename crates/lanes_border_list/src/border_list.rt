// A section's borders into a lent list. The section is a parameter beside s: it is any section at any s, and of the two `SideAt::both` alone reads both.
ghost use Rattle.std.specs.Prelude.{◌≡◌, ◌*◌, ◌/◌, cond, leb, length, Some, None};
ghost use Rattle.lanes_borders.specs.Borders.{borders_at, lanes_of, side_list};
ghost use Rattle.lanes_border_list.specs.BorderList.{listed_by};

use lanes_borders::{SideAt, section_lanes};
use records::LentRoad;

// The numbers that a lane's borders take in a lent list: inner, outer, width. The C interface lends the list flat.
const BORDERS_STRIDE: usize = 3;

// Writes the borders of a side's lanes into a list that has room for them and no more.
fn write_side(side: &SideAt, list: &mut [f64])
    requires { length list.old ≡ length side.now.lanes * 3 }
    ensures { list.new ≡ side_list (borders_at side.now.lanes side.now.sign side.now.base side.now.into) (length side.now.lanes) }
{
    let mut inner = side.base;
    // by index: once a loop over `chunks_exact_mut` is over, a proof knows how long the list is and not what it holds
    for k in 0..side.lanes.len() {
        let b = side.border(k, inner);
        let at = k * BORDERS_STRIDE;
        list[at..at + BORDERS_STRIDE].copy_from_slice(&[b.inner, b.outer, b.width]);
        inner = b.outer;
    }
}

// Writes the borders of a section's lanes at s, left outward, then right, and answers how many lanes; none where the list has no room for all, and then it stays as it was.
pub fn list_borders(road: &LentRoad, section: usize, s: f64, list: &mut [f64]) -> Option<usize>
    ensures value { result ≡ cond (leb (lanes_of road.now section) (length list.old / 3)) (Some (lanes_of road.now section)) None }
    ensures list_after { list.new ≡ listed_by (leb (lanes_of road.now section) (length list.old / 3)) road.now section s list.old }
{
    let lanes = section_lanes(road, section);
    if list.len() / BORDERS_STRIDE < lanes {
        return None;
    }
    let (left, right) = SideAt::both(road, section, s);
    let (written, _) = list.split_at_mut(lanes * BORDERS_STRIDE);
    let (lefts, rights) = written.split_at_mut(left.lanes.len() * BORDERS_STRIDE);
    write_side(&left, lefts);
    write_side(&right, rights);
    Some(lanes)
}
