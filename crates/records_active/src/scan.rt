// The active record: the last whose start is at most s + 1e-9. Scanned from the end, where the first that passes is the last that has started.
ghost use Rattle.std.specs.Prelude.{◌≡◌, ℕ, Float, get_or, length};
ghost use Rattle.std.specs.Option.{option_map};
ghost use Rattle.records_cubic.specs.Cubics.{cubic_at};
ghost use Rattle.records.specs.Active.{last_start, active_in, value_in, slope_in, active_up_to};

use records::HeightDef;
use records_cubic::{Cubic, Cubics};
use records_lent::{Record, Records};

// So far before its start a record is active.
pub const ACTIVE_MARGIN: f64 = 1e-9;

// A record that counts from its start on.
pub trait Starting: Record {
    ghost start: { Self → Float };

    fn start(self) -> f64
        ensures { result ≡ start self };
}

impl Starting for Cubic {
    ghost start = { λ cubic. cubic.start };

    fn start(self) -> f64 {
        self.start
    }
}

impl Starting for HeightDef {
    ghost start = { λ height. height.s_offset };

    fn start(self) -> f64 {
        self.s_offset
    }
}

// Of count starts, each answered by its place, the last that is at most s + 1e-9.
pub(crate) fn last_started<F: Fn(usize) -> f64>(count: usize, s: f64, start: F) -> Option<usize>
    requires { F.IsAlwaysCallable start }
    ensures { (starts : ℕ → Float) → ((i : ℕ) (x : Float) → F.post start i x → x ≡ starts i) → result ≡ last_start starts (active_up_to s) count }
{
    (0..count).rfind(|i| start(*i) <= s + ACTIVE_MARGIN)
}

// The active record of a list.
pub fn active<T: Starting>(records: &Records<T>, s: f64) -> Option<usize>
    ensures { result ≡ last_start (λ (i : ℕ). T.start (get_or records.now i T.none)) (active_up_to s) (length records.now) }
{
    last_started(records.len(), s, |i| records.get(i).start())
}

// The active cubic of a list, by value. Not by `map`: what the proof learns of a call of `|i| cubics.get(i)` is a unit, with its clause inferred or
// written.
pub fn active_cubic(cubics: &Cubics, s: f64) -> Option<Cubic>
    ensures { result ≡ option_map (cubic_at cubics.now) (active_in cubics.now s) }
{
    let i = active(cubics, s)?;
    Some(cubics.get(i))
}

// The value at s of the active cubic, 0 where none is.
pub fn value(cubics: &Cubics, s: f64) -> f64
    ensures { result ≡ value_in cubics.now s }
{
    active_cubic(cubics, s).map_or(0.0, |cubic| cubic.eval(s))
}

// The slope at s of the active cubic, 0 where none is.
pub fn slope(cubics: &Cubics, s: f64) -> f64
    ensures { result ≡ slope_in cubics.now s }
{
    active_cubic(cubics, s).map_or(0.0, |cubic| cubic.slope(s))
}
