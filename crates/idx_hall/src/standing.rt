ghost use Rattle.std.specs.Prelude.{ℕ, List};
ghost use Rattle.idx_outside.specs.Shape.{Shape};
ghost use Rattle.idx_hall.specs.Posts.{Post};

/// What stands for a list of published steps of one shape, and keeps some of their blocks. The shape never changes, and the
/// list only grows.
pub trait Standing {
    /// How many blocks each step has, and how many bytes a block of each field has.
    ghost shape: { Self → Shape };

    /// How many blocks it keeps at most, which never changes.
    ghost capacity: { Self → ℕ };

    /// The published steps, by their numbers.
    ghost posts: { Self → List Post };
}
