// One lane across the road at a station: the t of its inner and outer border, and its height at each, lateral shape included.
#[derive(Clone, Copy)]
pub struct Across {
    pub inner_t: f64,
    pub outer_t: f64,
    pub inner_height: f64,
    pub outer_height: f64,
}
