// The cases of a file, counted.
ghost use Rattle.std.specs.Prelude.{◌≡◌};
ghost use Rattle.vectors.specs.Counted.{counted};

use crate::Verdict;

#[derive(Clone, Copy, Debug, PartialEq, Eq)]
pub struct Tally {
    pub cases: u64,
    pub differences: u64,
    // lines that are neither vectors nor comments
    pub unread: u64,
}

impl Tally {
    pub fn new() -> Self {
        Self {
            cases: 0,
            differences: 0,
            unread: 0,
        }
    }

    pub fn with(mut self, verdict: Option<Verdict>) -> Self
        ensures { result ≡ counted self verdict }
    {
        match verdict {
            Some(Verdict::Same) => {
                self.cases = self.cases.saturating_add(1);
            }
            Some(Verdict::Differs) => {
                self.cases = self.cases.saturating_add(1);
                self.differences = self.differences.saturating_add(1);
            }
            None => {
                self.unread = self.unread.saturating_add(1);
            }
        }
        self
    }
}
