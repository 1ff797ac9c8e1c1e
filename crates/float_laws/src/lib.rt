// Laws on IEEE 754 arithmetic, for the proofs of the crates above. There is no code here: the laws are in proofs/, over the format (f32 and f64) and with bounds as parameters.
//
// A finite value is a whole number of units, the format's smallest value: `pl f x - mi f x`, of size `mag f x` (explained in Value). Every operation is the exact result, rounded once by `rnd` (`Is`, in Operation).
// A new operation needs one law that gives its `Is`; its order, size, interval and error then follow from the general laws.
//
// The files, in the order in which they build on each other:
//   Units        `rnd`, the rounding of a fraction to a value, on naturals: monotone, exact where it can be, off by half a last place at most
//   Value        a value in units (`mag`, `pl`, `mi`, `Real`); `le` and `lt` as orders of units; the negative
//   Operation    `Is f z P N c`: z is (P - N) / c units, rounded once; for add, sub, mul and div. The size of a product
//   Interval     `In f lo hi x`: lo ≤ x ≤ hi, all finite; each operation's interval, computed at the ends. The size of a quotient
//   Size         `Within f x A`: |x| ≤ A, both finite; the operations; `size`, which is |x| as computed; a cubic and its slope against the bounds that a program tests
//   Exact        a value is its own rounding; sums grow; from a bound on a sum of squares to bounds on the components
//   Order        the operations keep or turn the order; the size of a quotient; a running sum, for a loop's invariant
//   Error        `Near`: the absolute error of one operation, as a fact that `omega` reads; a product with a constant (`Scaled`)
//   Relative     `Relative`: the same as a part of the exact size
//   Close        `Close K A B k S`: naturals that agree but for k parts in K of a scale S; sums, products and chains of such
//   Interpolate  a + (b - a) * t stays within its ends, but for three roundings
//   UnitVector   a vector over the root of its sum of squares, in the plane and in space: finite, and of length 1 but for 1/1000
//   Checker      `Ex`: straight-line code as data; `check`, `bisect` and `sweep` compute a bound on its value and so prove it
//   Nearest      a quotient to the nearest whole number, by the tests of code on integers
//   Pattern      the bit pattern of a rounded fraction
//   Same         a value by its sign and its magnitude in units, and back
//   Whole        whole numbers among the values: small sums are exact; x + c less c is x to the nearest whole number
//   Zero         x less +0 is x itself, a zero's sign too
//
// Which to take:
//   a bound that the program computes from sizes and tests                     Size (`Within`; `nn` and `fin-of_le` show that it is finite)
//   constant bounds on straight-line code                                      Checker; too wide: cut by `bisect`, in several variables by `sweep`
//   two quantities that go together, which no interval shows                   Error (`Near`, `mul-const`), joined by `omega`
//   an error against the exact value over several steps                        Relative for each step, Close to carry them
//   a comparison of two results                                                Order, or `is_le` of Exact
//   a loop that adds                                                           `sum-none` and `sum_step` of Order
//   a mean of two values, or a piece of a polyline                             Interpolate
//   a count in floats, or a float to the nearest whole number                  Whole
//   a direction                                                                UnitVector; `norm-within` of Exact where only sizes matter
#![tactic(auto)]
