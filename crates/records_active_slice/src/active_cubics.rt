// The active record of a lent slice of cubics, by the same rule as in a part of the lent numbers.
ghost use Rattle.std.specs.Prelude.{◌≡◌};
ghost use Rattle.records.specs.Active.{active_in};

use records_active::ACTIVE_MARGIN;
use records_cubic::Cubic;

// The active cubic of a lent slice of cubics. Not by `records_active::active`, which reads records out of flat numbers: these stand as cubics already, and
// the slice's own search says the same in one line.
pub fn active_in(records: &[Cubic], s: f64) -> Option<usize>
    ensures { result ≡ active_in records.now s }
{
    records
        .iter()
        .rposition(|cubic| cubic.start <= s + ACTIVE_MARGIN)
}
