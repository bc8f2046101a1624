ghost use Rattle.std.specs.Prelude.{◌≡◌, ◌+◌, ◌<◌, ◌^◌};

/// A word that is wrong or missing.
#[derive(Clone, Copy, Debug)]
pub struct Misread {
    /// Its place, counted from 0.
    pub at: u64,
    /// What is expected there, for people.
    pub expected: &'static str,
}

impl Misread {
    /// The same word in the list that has so many words more in front.
    pub(crate) fn behind(self, words: u64) -> Misread
        requires { self.at + words < 2 ^ 64 }
        ensures { result.at ≡ self.at + words }
    {
        Misread {
            at: self.at + words,
            expected: self.expected,
        }
    }
}
