// Across a road, which the C interface lends as its two slices: its height and its lanes. A side is right unless its flag is 0.
ghost use Rattle.std.specs.Prelude.{◌≡◌, not, length, eqb};
ghost use Rattle.records.specs.Roads.{lent_road, section_index};
ghost use Rattle.lanes.specs.Lateral.{shape_of, cross_height, height_toward};
ghost use Rattle.lanes_borders.specs.Borders.{side_lanes};
ghost use Rattle.lanes_heights.specs.Heights.{across_at};

use records::{LanePlace, LentRoad};

// Answers the height. Beside it: its two parts, the section at s, and how many lanes a section has on a side.
#[unsafe(no_mangle)]
pub extern "C" fn probe_across(
    words: &[u16],
    numbers: &[f64],
    s: f64,
    t: f64,
    toward: f64,
    section: usize,
    right: u32,
    shape: &mut f64,
    cross: &mut f64,
    at: &mut usize,
    count: &mut usize,
) -> f64
    ensures value { result ≡ height_toward (lent_road words numbers) s t toward }
    ensures shape_after { shape.new ≡ shape_of (lent_road words numbers) s t }
    ensures cross_after { cross.new ≡ cross_height (lent_road words numbers) s t toward }
    ensures at_after { at.new ≡ section_index (lent_road words numbers) s }
    ensures count_after { count.new ≡ length (side_lanes (lent_road words numbers) section (not (eqb right 0))) }
{
    let road = LentRoad::new(words, numbers);
    *shape = lanes_shape::shape_at(&road, s, t);
    *cross = lanes_shape::cross_height(&road, s, t, toward);
    *at = records_active::section_index(&road, s);
    *count = records_sections::lane_count(&road, section, right != 0);
    lanes_shape::height_toward(&road, s, t, toward)
}

#[unsafe(no_mangle)]
pub extern "C" fn probe_lane(
    words: &[u16],
    numbers: &[f64],
    section: usize,
    s: f64,
    tangent: f64,
    right: u32,
    k: usize,
    inner_t: &mut f64,
    outer_t: &mut f64,
    inner_height: &mut f64,
    outer_height: &mut f64,
)
    ensures inner_t_after { inner_t.new ≡ (across_at (lent_road words numbers) section s tangent (not (eqb right 0)) k).inner_t }
    ensures outer_t_after { outer_t.new ≡ (across_at (lent_road words numbers) section s tangent (not (eqb right 0)) k).outer_t }
    ensures inner_height_after { inner_height.new ≡ (across_at (lent_road words numbers) section s tangent (not (eqb right 0)) k).inner_height }
    ensures outer_height_after { outer_height.new ≡ (across_at (lent_road words numbers) section s tangent (not (eqb right 0)) k).outer_height }
{
    let road = LentRoad::new(words, numbers);
    let right = right != 0;
    let lane = lanes_heights::lane_across(&road, LanePlace { section, right, k }, s, tangent);
    *inner_t = lane.inner_t;
    *outer_t = lane.outer_t;
    *inner_height = lane.inner_height;
    *outer_height = lane.outer_height;
}
