// How many lines made each call.
use crate::calls::{Call, Verdict};
use test_support::Counts;

#[derive(Clone, Copy, Default)]
pub(crate) struct Tally {
    pub(crate) samples: Counts,
    pub(crate) dots: Counts,
    pub(crate) broken: u64,
}

impl Tally {
    // A line that no call was found for is broken.
    pub(crate) fn count(&mut self, verdict: Option<Verdict>) {
        let Some(Verdict { call, same }) = verdict else {
            self.broken = self.broken.wrapping_add(1);
            return;
        };
        match call {
            Call::Samples => self.samples.count(!same),
            Call::Dots => self.dots.count(!same),
        }
    }
}
