// How the deeds were judged, counted.
ghost use Rattle.judge_rules.specs.Total.{counted, none};
ghost use Rattle.std.specs.Prelude.{◌≡◌};

use super::record::Verdict;

// How many deeds there were, and how many of each verdict.
#[derive(Clone, Copy, Default)]
pub struct Total {
    pub deeds: u64,
    pub asked: u64,
    pub stolen: u64,
    pub unasked: u64,
}

impl Total {
    // None yet.
    pub fn new() -> Total
        ensures { result ≡ none }
    {
        Total::default()
    }

    // One more deed, with this verdict; what can't be counted further stays as it is.
    pub fn count(&mut self, verdict: Verdict)
        ensures { self.new ≡ counted verdict self.old }
    {
        self.deeds = self.deeds.saturating_add(1);
        match verdict {
            Verdict::Asked { .. } => self.asked = self.asked.saturating_add(1),
            Verdict::Stolen { .. } => self.stolen = self.stolen.saturating_add(1),
            Verdict::NotAsked => self.unasked = self.unasked.saturating_add(1),
        }
    }
}
