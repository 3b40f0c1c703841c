// What the judge says of a deed.
ghost use Rattle.judge_rules.specs.Judge.{act_of, judged, robbed, seen, unasked, verdict};
ghost use Rattle.std.specs.Prelude.{◌≡◌};

use super::find::find;
use super::record::{Done, Judge, Verdict};

impl Judge {
    // No line accounts for it: which keys of the three had been stolen?
    fn without_line(&self, done: &Done) -> Verdict
        ensures { result ≡ unasked (robbed (seen self.now) done.now.reader) (robbed (seen self.now) done.now.service) (robbed (seen self.now) 0) }
    {
        let reader = self.is_robbed(done.reader);
        let service = self.is_robbed(done.service);
        let house = self.is_robbed(0);
        if reader || service || house {
            Verdict::Stolen {
                reader,
                service,
                house,
            }
        } else {
            Verdict::NotAsked
        }
    }

    // Judges a deed; the oldest line that accounts for it is spent.
    // The line is taken by its index, since the verdict tells the place.
    pub fn judge(&mut self, done: &Done) -> Verdict
        ensures answer { result ≡ verdict (seen self.old) (act_of done.now) }
        ensures after { seen self.new ≡ judged (seen self.old) (act_of done.now) }
    {
        let Some(i) = find(self.lag, done, &self.lines) else {
            return self.without_line(done);
        };
        let line = &mut self.lines[i];
        line.spent = true;
        Verdict::Asked {
            line: i as u64 + 1,
            at: line.wanted.at,
        }
    }
}
