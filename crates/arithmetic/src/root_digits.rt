// The digits of a square root, for either width: the upper ones are worked out one by one, and those below follow at once, as one digit of a large base.
ghost use Rattle.std.specs.Prelude.{◌≡◌, ◌⊎◌, ◌+◌, ◌*◌, ◌/◌, ◌%◌, ◌<◌, ◌≤◌, ◌^◌};

use crate::bits::power;

// The next digit: 1 where the trial can be taken off. A number and no branch, which would be guessed wrong at every second digit.
fn next_digit(trial: u64, rem: u64) -> u64
    ensures { ((result ≡ 1) × (trial ≤ rem)) ⊎ ((result ≡ 0) × (rem < trial)) }
{
    u64::from(trial <= rem)
}

// The two digits of m at place k, counted from the lowest.
fn two_at(m: u64, k: u64) -> u64
    requires { k < 32 }
    ensures { result ≡ m / 2 ^ (2 * k) % 4 }
{
    m / power(2 * k) % 4
}

// The digits of a root so far, and what is left of the number under it: so little that the root is the largest whose square is at most that number.
#[derive(Clone, Copy)]
pub(crate) struct Partial {
    pub(crate) root: u64,
    pub(crate) rem: u64,
    ghost little: { rem ≤ 2 * root },
}

impl Partial {
    ghost use Rattle.arithmetic.specs.RootSteps.{under};

    // One digit more: two digits of the number under the root come down.
    fn digit(self, two: u64) -> Self
        requires { (self.root < 2 ^ 27) × (two < 4) }
        ensures { under result ≡ under self * 4 + two }
    {
        let rem = self.rem * 4 + two;
        let trial = self.root * 4 + 1;
        let d = next_digit(trial, rem);
        Partial {
            root: self.root * 2 + d,
            rem: rem - trial * d,
        }
    }

    // The root of m, which has at most n digits, one by one from the highest.
    fn upper(m: u64, n: u64) -> Self
        requires { (n ≤ 27) × (m < 2 ^ (2 * n)) }
        ensures { under result ≡ m }
    {
        let mut s = Partial { root: 0, rem: 0 };
        for k in (0..n).rev() {
            s = s.digit(two_at(m, k));
        }
        s
    }

    // The digits below at once, as one digit of the base 2 * half: what is left times the base, over twice the root so far, is that digit or, as half is at most the root, one more. It is one more where its square can't be taken off.
    fn lower(self, half: u64) -> Self
        requires { (0 < half) × (half ≤ self.root) × (self.root < 2 ^ 27) }
        ensures number { under result ≡ under self * (2 * half * (2 * half)) }
        ensures bound { result.root ≤ 2 ^ 55 }
    {
        let base = 2 * half;
        let twice = 4 * half;
        let part = self.rem * half;
        let q = part / self.root;
        let left = part % self.root;
        let d = next_digit(left * twice + 1, q * q);
        let low = q - d;
        let rest = left + self.root * d;
        Partial {
            root: self.root * base + low,
            rem: rest * twice - low * low,
        }
    }

    // The root of m times the square of the base: the root of m, which has at most n digits, and below it one digit of the base 2 * half.
    pub(crate) fn of(m: u64, n: u64, half: u64) -> Self
        requires { (n ≤ 27) × (m < 2 ^ (2 * n)) × (0 < half) × (half * half ≤ m) }
        ensures number { under result ≡ m * (2 * half * (2 * half)) }
        ensures bound { result.root ≤ 2 ^ 55 }
    {
        Partial::upper(m, n).lower(half)
    }
}
