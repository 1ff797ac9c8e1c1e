// The coefficients of the sine and the cosine: entry i is 1/n! for n = i + 2, rounded, negative where n mod 4 is 2 or 3. One table, since that is one rule, checked once over all entries; the sine and the cosine each take every second one.

pub(crate) const QUOTIENTS: [f64; 15] = [
    -0.5,
    -0.16666666666666666,
    0.041666666666666664,
    0.008333333333333333,
    -0.001388888888888889,
    -0.0001984126984126984,
    2.48015873015873e-05,
    2.7557319223985893e-06,
    -2.755731922398589e-07,
    -2.505210838544172e-08,
    2.08767569878681e-09,
    1.6059043836821613e-10,
    -1.1470745597729725e-11,
    -7.647163731819816e-13,
    4.779477332387385e-14,
];
