ghost use Rattle.std.specs.Prelude.{◌≡◌, IfOk};
ghost use Rattle.std.specs.Arc.{arc_value};

use idx_outside::{Blocks, NoMemory};
use std::marker::Model;
use std::sync::Arc;

/// A step that was published, with its time at hand; seen as the step.
#[derive(Drop)]
pub(crate) struct Published<E: Blocks> {
    time: u64,
    edition: Arc<E>,
}

impl<E: Blocks> Model for Published<E> {
    ghost use Rattle.std.specs.Prelude.{◌≡◌};
    ghost use Rattle.std.specs.Arc.{arc_value};

    ghost Value = { E };

    ghost view = { λ p. arc_value p.edition };

    ghost invariant = { λ p. p.time ≡ E.time (arc_value p.edition) };
}

impl<E: Blocks + Drop> Published<E> {
    /// The step as a published one.
    pub(crate) fn new(edition: Arc<E>) -> Published<E>
        ensures { result ≡ arc_value edition }
    {
        Published {
            time: edition.time(),
            edition,
        }
    }

    /// The step's time.
    pub(crate) fn time(&self) -> u64
        ensures { result ≡ E.time self.now }
    {
        self.time
    }

    /// The step.
    pub(crate) fn edition(&self) -> &Arc<E>
        ensures { arc_value result.now ≡ self.now }
    {
        &self.edition
    }

    /// The step once more.
    pub(crate) fn share(&self) -> Result<Published<E>, NoMemory>
        ensures { IfOk result (λ p. p ≡ self.now) }
    {
        let edition = Arc::try_clone(&self.edition)?;
        Ok(Published {
            time: self.time,
            edition,
        })
    }
}
