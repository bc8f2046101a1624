//! Laws of the definitions, each the contract of a function that does nothing.
ghost use Rattle.std.specs.Prelude.{◌≡◌, ◌↔◌, ◌<◌, ◌≤◌, ℕ, List, [], None, Ok, IsSome, true, false};
ghost use Rattle.std.specs.Option.{unwrap_or};
ghost use Rattle.idx_outside.specs.Files.{has_folder};
ghost use Rattle.idx_outside.specs.declared.mem_file.MemFile.{MemFile};
ghost use Rattle.idx_header.specs.Header.{HasTime, HeaderValue, IsHeader, at_revision};
ghost use Rattle.idx_header.specs.HeaderOf.{header_of};
ghost use Rattle.idx_header.specs.Names.{file_name, step_folder};
ghost use Rattle.idx_header.specs.Revisions.{header_that_stands, next_revision, stands_at};
ghost use Rattle.idx_header.specs.Written.{IsWritable, text_of};

/// Reading the canonical text of a header that can be written gives the header back.
pub fn texts_read_back()
    ensures { (h : HeaderValue) → IsHeader h → IsWritable h → header_of (text_of h) ≡ Ok h }
{}

/// Different triples of a step, a revision and a file have different names.
pub fn names_differ()
    ensures { (h : HeaderValue) (r q s u f g : ℕ) → IsHeader (at_revision r h) → IsHeader (at_revision q h) →
        HasTime h s → HasTime h u → file_name (at_revision r h) s f ≡ file_name (at_revision q h) u g →
        (s ≡ u) × (r ≡ q) × (f ≡ g) }
{}

/// The revision that is written next: how many stand without a gap from revision 0 on.
pub fn revisions_are_counted()
    ensures few { (h : HeaderValue) (s : ℕ) (files : List MemFile) → next_revision h s files ≤ 256 }
    ensures below { (h : HeaderValue) (s r : ℕ) (files : List MemFile) → r < next_revision h s files →
        stands_at h s files r ≡ true }
    ensures next { (h : HeaderValue) (s : ℕ) (files : List MemFile) → next_revision h s files < 256 →
        stands_at h s files (next_revision h s files) ≡ false }
    ensures first { (h : HeaderValue) (s : ℕ) (files : List MemFile) →
        (next_revision h s files ≡ 0) ↔ (stands_at h s files 0 ≡ false) }
    ensures none { (h : HeaderValue) (s : ℕ) (files : List MemFile) →
        (header_that_stands h s files ≡ None) ↔ (stands_at h s files 0 ≡ false) }
    ensures untimed { (h : HeaderValue) (s : ℕ) (files : List MemFile) → h.steps ≡ None → next_revision h s files ≡ 1 }
    ensures timed { (h : HeaderValue) (s r : ℕ) (files : List MemFile) → IsSome h.steps → stands_at h s files r ≡
        has_folder (unwrap_or (step_folder (at_revision r h) s) []) files }
{}
