//! Worked values of the definitions.
ghost use Rattle.std.specs.Prelude.{◌≡◌, [], ◌∷◌, Some, None, codes, option_and_then, option_map};
ghost use Rattle.idx_names.specs.Numeral.{numeral};
ghost use Rattle.idx_names.specs.Pieces.{first_piece, pieces_behind, part_of, pieces_text};
ghost use Rattle.idx_names.specs.Template.{parts_of, of_parts, template_of, template_text};
ghost use Rattle.idx_names.specs.TimeTemplate.{time_template_of, time_template_text, folder_text, folder_name};
ghost use Rattle.idx_names.specs.Path.{numbered, step_folder, file_path};

/// Texts of templates as they are written again, and texts that spell none.
#[tactic(auto, unfolding(crate::specs::Pieces::first_piece, crate::specs::Pieces::pieces_behind, crate::specs::Pieces::part_of, crate::specs::Pieces::pieces_text, crate::specs::Template::parts_of, crate::specs::Template::of_parts, crate::specs::Template::template_of, crate::specs::Template::template_text))]
pub fn worked_templates()
    ensures dots { option_map template_text (template_of (codes "./d/%02x/./%02x.bin")) ≡ Some (codes "d/%02x/%02x.bin") }
    ensures inner_dots { option_map template_text (template_of (codes "a..b%01x")) ≡ Some (codes "a..b%01x") }
    ensures five_marks { option_map template_text (template_of (codes "%08x%01x%01x/%01x%01x")) ≡
        Some (codes "%08x%01x%01x/%01x%01x") }
    ensures empty_part { template_of (codes "a//b%01x") ≡ None }
    ensures leading { template_of (codes "/a%01x") ≡ None }
    ensures ending { template_of (codes "a%01x/") ≡ None }
    ensures two_dots { template_of (codes "../%01x") ≡ None }
    ensures no_zero { template_of (codes "%1x") ≡ None }
    ensures nine_digits { template_of (codes "%09x") ≡ None }
    ensures no_mark { template_of (codes "a") ≡ None }
    ensures empty { template_of [] ≡ None }
    ensures six_marks { template_of (codes "%01x%01x%01x/%01x%01x%01x") ≡ None }
{}

/// Texts of time templates, and texts that spell none.
#[tactic(auto, unfolding(crate::specs::Pieces::first_piece, crate::specs::Pieces::pieces_behind, crate::specs::Pieces::pieces_text, crate::specs::TimeTemplate::time_template_of, crate::specs::TimeTemplate::time_template_text))]
pub fn worked_time_templates()
    ensures usual { option_map time_template_text (time_template_of (codes "time%04d/")) ≡ Some (codes "time%04d/") }
    ensures nine_digits { option_map time_template_text (time_template_of (codes ".%09d./")) ≡ Some (codes ".%09d./") }
    ensures no_end { time_template_of (codes "time%04d") ≡ None }
    ensures two_parts { time_template_of (codes "a/time%04d/") ≡ None }
    ensures no_mark { time_template_of (codes "time/") ≡ None }
    ensures two_marks { time_template_of (codes "%01d%01d/") ≡ None }
    ensures no_digits { time_template_of (codes "time%00d/") ≡ None }
    ensures other_letter { time_template_of (codes "time%04x/") ≡ None }
    ensures empty { time_template_of [] ≡ None }
{}

/// Paths of files and of steps' folders.
#[tactic(auto, unfolding(crate::specs::Numeral::numeral, crate::specs::Pieces::first_piece, crate::specs::Pieces::pieces_behind, crate::specs::Pieces::part_of, crate::specs::Pieces::pieces_text, crate::specs::Template::parts_of, crate::specs::Template::of_parts, crate::specs::Template::template_of, crate::specs::TimeTemplate::time_template_of, crate::specs::TimeTemplate::folder_text, crate::specs::TimeTemplate::folder_name, crate::specs::Path::numbered, crate::specs::Path::step_folder, crate::specs::Path::file_path))]
pub fn worked_paths()
    ensures two_marks { option_and_then (λ t. option_map (λ time. file_path t (Some (time, 3, 0)) 4612)
        (time_template_of (codes "time%04d/"))) (template_of (codes "./d/%02x/%02x.bin")) ≡
        Some (codes "d/time0003/12/04.bin") }
    ensures folder { option_and_then (λ t. option_map (λ time. step_folder t time 3 0)
        (time_template_of (codes "time%04d/"))) (template_of (codes "./d/%02x/%02x.bin")) ≡ Some (codes "d/time0003") }
    ensures revised { option_and_then (λ t. option_map (λ time. file_path t (Some (time, 3, 2)) 4612)
        (time_template_of (codes "time%04d/"))) (template_of (codes "./d/%02x/%02x.bin")) ≡
        Some (codes "d/time0003.r2/12/04.bin") }
    ensures revised_folder { option_and_then (λ t. option_map (λ time. step_folder t time 3 2)
        (time_template_of (codes "time%04d/"))) (template_of (codes "./d/%02x/%02x.bin")) ≡
        Some (codes "d/time0003.r2") }
    ensures last_revision { option_and_then (λ t. option_map (λ time. step_folder t time 0 255)
        (time_template_of (codes "t%01d/"))) (template_of (codes "%01x")) ≡ Some (codes "t0.r255") }
    ensures one_mark { option_and_then (λ t. option_map (λ time. file_path t (Some (time, 0, 0)) 2)
        (time_template_of (codes "time%04d/"))) (template_of (codes "./%01x.bin")) ≡ Some (codes "time0000/2.bin") }
    ensures no_steps { option_map (λ t. file_path t None 4612) (template_of (codes "./d/%02x/%02x.bin")) ≡
        Some (codes "d/12/04.bin") }
    ensures letters { option_map (λ t. file_path t None 43981) (template_of (codes "%01x/%02x")) ≡ Some (codes "ab/cd") }
    ensures long_step { option_and_then (λ t. option_map (λ time. step_folder t time 120 0)
        (time_template_of (codes "t%02d/"))) (template_of (codes "%01x")) ≡ Some (codes "t120") }
{}
