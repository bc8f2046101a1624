//! Laws of the definitions, each the contract of a function that does nothing.
ghost use Rattle.std.specs.Prelude.{◌≡◌, ℕ, List};
ghost use Rattle.idx_words.specs.Built.{IsBuilt};
ghost use Rattle.idx_words.specs.ConvertValue.{ConvertValue};
ghost use Rattle.idx_words.specs.Words.{IsUsagePlace};

/// A list of words has at most one place of a usage fault.
pub fn places_are_one()
    ensures { (words : List (List ℕ)) (a b : ℕ) → IsUsagePlace words a → IsUsagePlace words b → a ≡ b }
{}

/// The words of `convert` ask for one header text.
pub fn built_texts_are_one()
    ensures { (c : ConvertValue) (a b : List ℕ) → IsBuilt c a → IsBuilt c b → a ≡ b }
{}
