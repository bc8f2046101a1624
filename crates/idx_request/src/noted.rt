ghost use Rattle.std.specs.Prelude.{◌≡◌, ℕ, List, [], ◌∷◌, ◌++◌, bytes_eq, if◌then◌else◌};
ghost use Rattle.idx_request.specs.Kept.{IsNoted};
ghost use Rattle.idx_request.specs.Pairs.{is_double, text_of};

/// What is kept of the values of one parameter, as they stand in the query.
#[derive(Clone, Copy)]
pub(crate) enum Noted<'a> {
    /// It does not stand there.
    Missing,
    /// It stands there once, with this value.
    Once(&'a [u8]),
    /// It stands there more than once.
    Twice,
}

impl<'a> Noted<'a> {
    /// The same with one more value, if that is one of this parameter.
    fn and(self, here: bool, value: &'a [u8]) -> Noted<'a>
        ensures { (before : List (List ℕ)) → IsNoted self.entry before
            → IsNoted result (if here then before ++ text_of value.now ∷ [] else before) }
    {
        if !here {
            return self;
        }
        match self {
            Noted::Missing => Noted::Once(value),
            Noted::Once(_) => Noted::Twice,
            Noted::Twice => Noted::Twice,
        }
    }

    /// The same with one more pair, if its name is that of this parameter.
    pub(crate) fn with(self, name: &[u8], key: &[u8], value: &'a [u8]) -> Noted<'a>
        ensures { (before : List (List ℕ)) → IsNoted self.entry before
            → IsNoted result (if bytes_eq key.now name.now then before ++ text_of value.now ∷ [] else before) }
    {
        self.and(key == name, value)
    }

    /// Whether it stands there more than once.
    pub(crate) fn is_double(self) -> bool
        ensures { (values : List (List ℕ)) → IsNoted self.entry values → result ≡ is_double values }
    {
        match self {
            Noted::Missing => false,
            Noted::Once(_) => false,
            Noted::Twice => true,
        }
    }
}
