//! Laws of the definitions, each the contract of a function that does nothing.
ghost use Rattle.std.specs.Prelude.{◌≡◌, ℕ, ◌<◌, List, Some, length, slice_get};
ghost use Rattle.idx_geom.specs.Region.{points};
ghost use Rattle.idx_geom.specs.Volume.{IsVolume};
ghost use Rattle.idx_hz.specs.Answer.{answer};
ghost use Rattle.idx_outside.specs.declared.mem_file.MemFile.{MemFile};
ghost use Rattle.idx_header.specs.Header.{HeaderValue, IsHeader};
ghost use Rattle.idx_header.specs.Revisions.{IsRevisionOf};
ghost use Rattle.idx_rowmajor.specs.declared.layout.Layout.{Layout};
ghost use Rattle.idx_layout.specs.OfHeader.{placing_of};
ghost use Rattle.idx_edition.specs.Stored.{HasFiles, stored_block};
ghost use Rattle.idx_plan.specs.Answer.{answer_of};
ghost use Rattle.idx_plan.specs.declared.ask.Ask.{Ask};

/// Where the files of a step that was written in a layout stand at a revision, whatever else does, the answer to a question
/// is that out of the samples that were written; so it is the same in every layout.
pub fn answers_say_what_was_written()
    ensures written { (layout : Layout) (h revised : HeaderValue) (ask : Ask) (volume : List (List (List ℕ)))
        (samples : List (List ℕ)) (files : List MemFile) → IsRevisionOf h revised → IsHeader revised →
        IsVolume (placing_of h).sizes (length (points h.box)) volume → slice_get volume ask.field ≡ Some samples →
        HasFiles layout revised ask.time volume files →
        answer_of h ask (stored_block revised ask.time files)
        ≡ answer h.mask h.box samples ask.region ask.lo ask.hi }
    ensures layouts { (layout other : Layout) (h revised : HeaderValue) (ask : Ask) (volume : List (List (List ℕ)))
        (files others : List MemFile) → IsRevisionOf h revised → IsHeader revised →
        IsVolume (placing_of h).sizes (length (points h.box)) volume → ask.field < length h.fields →
        HasFiles layout revised ask.time volume files → HasFiles other revised ask.time volume others →
        answer_of h ask (stored_block revised ask.time files)
        ≡ answer_of h ask (stored_block revised ask.time others) }
{}
