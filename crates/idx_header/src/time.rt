ghost use Rattle.std.specs.Prelude.{◌≡◌, ◌≢◌, ◌≤◌, ◌-◌, ◌^◌, IfErr, IfOk, IfSome, Some, None, ◌∷◌, [], map, take};
ghost use Rattle.idx_header.specs.Faults.{first_of};
ghost use Rattle.idx_text.specs.Numbers.{runs};
ghost use Rattle.idx_names.specs.TimeTemplate.{IsTimeTemplate};
ghost use Rattle.idx_header.specs.Header.{AreSteps};
ghost use Rattle.idx_header.specs.HeaderOf.{time_faults, steps_in};
ghost use Rattle.idx_header.specs.Keys.{section_of};
ghost use Rattle.idx_header.specs.Time.{steps_of, steps_of_words};

use crate::key::Key;
use crate::keys::section_of;
use crate::{HeaderFault, HeaderKind, Steps};
use arrayvec::ArrayVec;
use idx_names::TimeTemplate;
use idx_outside::NoMemory;
use idx_text::{Section, is_blank, read_number};
use std::alloc::Global;

const MAX_STEP: u64 = (1 << 31) - 1;

const MAX_STEPS: u64 = 4_096;

/// The steps of their section, where it stands.
pub(crate) fn read_time(alloc: Global, sections: &[Section]) -> Result<Option<Steps>, HeaderFault>
    ensures ok { IfOk result (λ steps. (first_of (time_faults sections.now) ≡ None)
        × (steps ≡ steps_in (section_of Key.Time sections.now))) }
    ensures valid { IfOk result (λ steps. IfSome steps AreSteps) }
    ensures err { IfErr result (λ f. f.kind ≢ HeaderKind.NoMemory →
        first_of (time_faults sections.now) ≡ Some f) }
{
    let Some(section) = section_of(sections, Key::Time) else {
        return Ok(None);
    };
    let Some(steps) = read_steps(alloc, section.value.as_slice())? else {
        return Err(HeaderFault::on(section.line, HeaderKind::BadTime));
    };
    if steps.last - steps.first >= MAX_STEPS {
        return Err(HeaderFault::on(section.line, HeaderKind::OverLimit));
    }
    Ok(Some(steps))
}

/// The steps that a text spells: `from to template`.
fn read_steps(alloc: Global, text: &[u8]) -> Result<Option<Steps>, NoMemory>
    ensures value { IfOk result (λ steps. steps ≡ steps_of text.now) }
    ensures ordered { IfOk result (λ steps. IfSome steps (λ s. s.first ≤ s.last)) }
    ensures most { IfOk result (λ steps. IfSome steps (λ s. s.last ≤ 2 ^ 31 - 1)) }
    ensures valid { IfOk result (λ steps. IfSome steps (λ s. IsTimeTemplate s.template)) }
{
    let found = few_runs(text);
    let words = found.as_slice();
    if words.len() != 3 {
        return Ok(None);
    }
    steps_with(alloc, words[0], words[1], words[2])
}

/// The steps of three words.
fn steps_with(
    alloc: Global,
    first: &[u8],
    last: &[u8],
    template: &[u8],
) -> Result<Option<Steps>, NoMemory>
    ensures value { IfOk result (λ steps. steps ≡ steps_of_words (first.now ∷ last.now ∷ template.now ∷ [])) }
    ensures ordered { IfOk result (λ steps. IfSome steps (λ s. s.first ≤ s.last)) }
    ensures most { IfOk result (λ steps. IfSome steps (λ s. s.last ≤ 2 ^ 31 - 1)) }
    ensures valid { IfOk result (λ steps. IfSome steps (λ s. IsTimeTemplate s.template)) }
{
    let Some(first) = read_number(first) else {
        return Ok(None);
    };
    let Some(last) = read_number(last) else {
        return Ok(None);
    };
    let Some(template) = TimeTemplate::read(alloc, template)? else {
        return Ok(None);
    };
    if first > last || last > MAX_STEP {
        return Ok(None);
    }
    Ok(Some(Steps {
        first,
        last,
        template,
    }))
}

/// The runs of bytes between blanks, or four of them where there are more.
fn few_runs(text: &[u8]) -> ArrayVec<&[u8], 4>
    ensures { map (λ r. r.now) result.items ≡ take 4 (runs text.now) }
{
    let mut found = ArrayVec::new();
    for run in text.split(|byte| is_blank(*byte)) {
        if run.is_empty() {
            continue;
        }
        if found.is_full() {
            continue;
        }
        found.push(run);
    }
    found
}
