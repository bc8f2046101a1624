ghost use Rattle.std.specs.Prelude.{◌≡◌, None, IfErr, IfOk, OnOk, Option, List};
ghost use Rattle.idx_outside.specs.declared.mem_file.MemFile.{MemFile};
ghost use Rattle.idx_header.specs.Header.{IsHeader};
ghost use Rattle.idx_plan.specs.Needed.{plan_fault};
ghost use Rattle.idx_extract.specs.Extract.{IsAsk, IsStop};

use crate::ExtractFault;
use idx_header::Header;
use idx_plan::{Ask, Question, count_samples};

/// What a question asks of a dataset, if it can be asked of it and has a plan. Takes no memory.
pub(crate) fn asked(header: &Header, question: &Question<'_>) -> Result<Ask, ExtractFault>
    ensures asked { IfOk result (λ ask. IsAsk header.now question.now ask) }
    ensures sound { IfOk result (λ ask. plan_fault header.now ask ≡ None) }
    ensures valid { OnOk result (IsHeader header.now) }
    ensures stop { (files : Option (List MemFile)) → IfErr result (IsStop header.now question.now files) }
{
    let ask = ask_of(header, question)?;
    count_samples(header, &ask)?;
    Ok(ask)
}

/// What a question asks of a dataset, if this has as many axes and a field of the name.
fn ask_of(header: &Header, question: &Question<'_>) -> Result<Ask, ExtractFault>
    ensures asked { IfOk result (λ ask. IsAsk header.now question.now ask) }
    ensures valid { OnOk result (IsHeader header.now) }
    ensures stop { (files : Option (List MemFile)) → IfErr result (IsStop header.now question.now files) }
{
    if question.region.axes() != header.axes() {
        return Err(ExtractFault::OtherAxes);
    }
    let Some(field) = header.find_field(question.field) else {
        return Err(ExtractFault::UnknownField);
    };
    Ok(Ask {
        time: question.time,
        field,
        region: question.region,
        lo: question.lo,
        hi: question.hi,
    })
}
