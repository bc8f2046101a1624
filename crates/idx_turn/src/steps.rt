//! A small value for the examples.
ghost use Rattle.std.specs.Prelude.{◌≡◌, []};
ghost use Rattle.idx_turn.specs.Examples.{bare_post};

use idx_hall::Standing;
use std::marker::Model;

/// A published step of which nothing but the time is known; seen as such a post.
#[derive(Drop)]
pub struct Step {
    time: u64,
}

impl Model for Step {
    ghost use Rattle.idx_hall.specs.Posts.{Post};
    ghost use Rattle.idx_turn.specs.Examples.{bare_post};

    ghost Value = { Post };

    ghost view = { λ s. bare_post s.time };
}

impl Step {
    /// The step of this time.
    pub fn new(time: u64) -> Step
        ensures { result ≡ bare_post time }
    {
        Step { time }
    }

    /// The time.
    pub fn time(&self) -> u64
        ensures { bare_post result ≡ self.now }
    {
        self.time
    }
}

/// A list of such steps, each of so many blocks.
#[derive(Drop)]
pub struct Steps {
    /// How many blocks each step has.
    pub blocks: u64,
    /// The steps, by their numbers.
    pub steps: Vec<Step>,
}

impl Standing for Steps {
    ghost use Rattle.std.specs.Prelude.{[]};

    ghost shape = { λ s. record { blocks = s.blocks; lengths = [] } };

    ghost capacity = { λ _. 0 };

    ghost posts = { λ s. s.steps.items };
}
