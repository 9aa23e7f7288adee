// A line against what a call answered and wrote.
ghost use Rattle.std.specs.Prelude.{◌≡◌, [], ◌∷◌, pos, length, Some};
ghost use Rattle.vectors.specs.Words.{words_of};
ghost use Rattle.vectors.specs.Matched.{left, matched, matched_output, matched_floats, verdict_of};

use crate::slices::LISTED;
use crate::{Verdict, floats, slices};

// What is left of a line after all that was compared; `None` once something was unlike.
#[derive(Clone, Copy)]
pub struct Compared<'a>(Option<&'a [i64]>);

impl<'a> Compared<'a> {
    pub fn with(line: &'a [i64]) -> Self
        ensures { left result ≡ Some line.now }
    {
        Self(Some(line))
    }

    pub fn numbers(self, told: &[i64]) -> Self
        ensures { left result ≡ matched (left self.entry) told.now }
    {
        let Self(Some(line)) = self else {
            return self;
        };
        Self(line.strip_prefix(told))
    }

    pub fn number(self, z: i64) -> Self
        ensures { left result ≡ matched (left self.entry) (z ∷ []) }
    {
        self.numbers(&[z])
    }

    // Its length, and its places or their sum.
    pub fn output(self, out: &[i64]) -> Self
        ensures { left result ≡ matched_output (left self.entry) out.now }
    {
        let places = self.number(out.len() as i64);
        if out.len() <= LISTED {
            return places.numbers(out);
        }
        places.number(slices::sum(out) as i64)
    }

    pub fn float(self, x: f64) -> Self
        ensures { left result ≡ matched (left self.entry) (words_of x) }
    {
        let bits = floats::bits_of(x);
        let words = [(bits / 0x1_0000_0000) as i64, (bits % 0x1_0000_0000) as i64];
        self.numbers(&words)
    }

    // Their count, and the words of each.
    pub fn floats(self, list: &[f64]) -> Self
        ensures { left result ≡ matched_floats (matched (left self.entry) (pos (length list.now) ∷ [])) list.now }
    {
        let mut compared = self.number(list.len() as i64);
        for x in list {
            compared = compared.float(*x);
        }
        compared
    }

    // The line ends here.
    pub fn verdict(self) -> Verdict
        ensures { result ≡ verdict_of (left self.entry) }
    {
        match self.0 {
            Some([]) => Verdict::Same,
            _ => Verdict::Differs,
        }
    }
}
