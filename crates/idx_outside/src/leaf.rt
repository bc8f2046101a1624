ghost use Rattle.std.specs.Prelude.{◌≡◌, ℕ, List, Option, length, IfSome};

/// A finished file, as a bay keeps it.
pub trait Leaf: Drop {
    /// The bytes, where they are known.
    ghost contents: { Self → Option (List ℕ) };

    /// The path for which its draft was made, or under which it was found, where it is known.
    ghost path: { Self → Option (List ℕ) };

    /// How many faults its draft had counted when it was sealed.
    ghost faults: { Self → ℕ };

    /// The number of bytes.
    fn len(&self) -> u64
        ensures { IfSome (contents self.now) (λ bytes. result ≡ length bytes) };
}
