//! Worked values of the definitions.
ghost use Rattle.std.specs.Prelude.{◌≡◌, [], ◌∷◌, ◌++◌, flat_map, codes, None};
ghost use Rattle.idx_header.specs.Worked.{small_header};
ghost use Rattle.idx_commands.specs.CutOutput.{cut_output};
ghost use Rattle.idx_commands.specs.SiteName.{site_name};
ghost use Rattle.idx_commands.specs.Summary.{summary};
ghost use Rattle.idx_commands.specs.Totals.{totals};

/// What the words of `cut` ask for of the bytes 0 to 15.
#[tactic(auto, unfolding(idx_raw::specs::Cut::cut_output))]
pub fn worked_cut()
    ensures output { cut_output (record {
      size = 1;
      extent = (0, 3) ∷ (0, 3) ∷ [];
      mask = 0 ∷ 1 ∷ 0 ∷ 1 ∷ [];
      region = (1, 2) ∷ (0, 3) ∷ [];
      lo = 0;
      hi = 3;
    }) (0 ∷ 1 ∷ 2 ∷ 3 ∷ 4 ∷ 5 ∷ 6 ∷ 7 ∷ 8 ∷ 9 ∷ 10 ∷ 11 ∷ 12 ∷ 13 ∷ 14 ∷ 15 ∷ []) ≡ 1 ∷ 2 ∷ 9 ∷ 10 ∷ [] }
{}

/// What `info` writes of a small header.
pub fn worked_summary()
    ensures lines { summary small_header ≡ flat_map (λ line. line ++ 10 ∷ []) (
        codes "version 6" ∷ codes "axes 2" ∷ codes "box 0 3 0 3" ∷ codes "bits V0101" ∷ codes "levels 4"
        ∷ codes "bitsperblock 2" ∷ codes "blocksperfile 2" ∷ codes "blocks 4" ∷ codes "steps 0 9"
        ∷ codes "field a uint8 1" ∷ []) }
    ensures untimed { summary (record small_header { steps = None }) ≡ flat_map (λ line. line ++ 10 ∷ []) (
        codes "version 6" ∷ codes "axes 2" ∷ codes "box 0 3 0 3" ∷ codes "bits V0101" ∷ codes "levels 4"
        ∷ codes "bitsperblock 2" ∷ codes "blocksperfile 2" ∷ codes "blocks 4" ∷ codes "steps none"
        ∷ codes "field a uint8 1" ∷ []) }
{}

/// The names that datasets are served by.
#[tactic(auto, unfolding(std::specs::Path::rsplit_once))]
pub fn worked_names()
    ensures in_folder { site_name (codes "data/run.idx") ≡ codes "run" }
    ensures alone { site_name (codes "v.idx") ≡ codes "v" }
    ensures other_ending { site_name (codes "a.idx/v.txt") ≡ codes "v.txt" }
    ensures short { site_name (codes "./idx") ≡ codes "idx" }
    ensures bare { site_name (codes ".idx") ≡ [] }
{}

/// What a server says of itself when it ends.
pub fn worked_totals()
    ensures line { totals 2 3 ≡ codes "links 2 replies 3" ++ 10 ∷ [] }
{}
