// A road with the samples of its spirals, as both are lent: with too few, what is not there is NaN.
// Clauses take the two out of it, since the definitions have them apart: most need the road alone, and what document 01 says of samples it says of any slice beside any road.
use records::LentRoad;

#[derive(Drop)]
pub struct SampledRoad<'a> {
    pub road: LentRoad<'a, 'a>,
    pub samples: &'a [f64],
}
