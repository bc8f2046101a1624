use std::marker::Model;

/// What a value stands for, as a seat knows it. No value of it is made.
pub struct Standpoint;

impl Model for Standpoint {
    ghost use Rattle.std.specs.Prelude.{[]};
    ghost use Rattle.idx_turn.specs.Stands.{Stand, stand};

    ghost Value = { Stand };

    ghost view = { λ _. stand (record { blocks = 0; lengths = [] }) 0 [] };
}

/// What a seat knows: what it has seen, the lesser of the two lists that it last joined, whether it is the writer, and
/// whether it holds the value. No value of it is made.
pub struct SeatView {
    pub seen: Option<Standpoint>,
    pub lesser: Option<Standpoint>,
    pub writer: bool,
    pub holds: bool,
}
