//! Worked rows of how all workers ended.
ghost use Rattle.std.specs.Prelude.{◌≡◌, [], ◌∷◌};
ghost use Rattle.idx_serve.specs.declared.door.ServeEnd.TheVariants.{Done, DoorFault, NoMemory};
ghost use Rattle.idx_workers.specs.Workers.{end_of};

/// Want of memory goes before the fault of a door, the fault of a lesser worker's before that of a greater one's, and each
/// before the workers that were done.
pub fn how_all_ended()
    ensures done { end_of (Done ∷ Done ∷ []) ≡ Done }
    ensures fault { end_of (Done ∷ DoorFault 2 ∷ Done ∷ DoorFault 1 ∷ []) ≡ DoorFault 2 }
    ensures memory { end_of (Done ∷ DoorFault 2 ∷ NoMemory ∷ []) ≡ NoMemory }
{}
