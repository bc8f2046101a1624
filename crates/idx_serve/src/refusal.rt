ghost use Rattle.std.specs.Prelude.{◌≡◌, IsTrue};
ghost use Rattle.idx_http.specs.Reply.{is_reply_status};
ghost use Rattle.idx_serve.specs.Refusals.{ends, plan_text, status_of, target_status, target_text, text_of, refusal_of};

use idx_plan::PlanFault;
use idx_query::QueryFault;
use idx_request::TargetFault;

/// Why a head gets no samples.
#[derive(Clone, Copy, Debug, PartialEq, Eq)]
pub enum Refusal {
    /// It is none, and no continuation makes it one.
    BadHead,
    /// It has too many bytes or fields.
    HeadTooLarge,
    /// A body follows it.
    HasBody,
    /// Its method is not GET.
    NotGet,
    /// Its target cannot be read. It is not for want of memory.
    Target(TargetFault),
    /// Its question has no plan. It is not for want of memory.
    Plan(PlanFault),
    /// No step of its time was published in the hall that was taken, which had so many steps.
    NotPublished { board: u64 },
    /// A read of a block failed.
    StoreFault,
    /// There was no memory to answer it.
    NoMemory,
}

impl Refusal {
    /// The status of the reply.
    pub fn status(self) -> u16
        ensures value { result ≡ status_of self }
        ensures known { IsTrue (is_reply_status result) }
    {
        match self {
            Refusal::BadHead => 400,
            Refusal::HeadTooLarge => 431,
            Refusal::HasBody => 501,
            Refusal::NotGet => 405,
            Refusal::Target(fault) => target_status(fault),
            Refusal::Plan(PlanFault::TooLarge { .. }) => 413,
            Refusal::Plan(_) => 400,
            Refusal::NotPublished { .. } => 404,
            Refusal::StoreFault => 500,
            Refusal::NoMemory => 503,
        }
    }

    /// The text of the reply.
    pub fn text(self) -> &'static [u8]
        ensures { result.now ≡ text_of self }
    {
        match self {
            Refusal::BadHead => b"BadHead",
            Refusal::HeadTooLarge => b"HeadTooLarge",
            Refusal::HasBody => b"HasBody",
            Refusal::NotGet => b"NotGet",
            Refusal::Target(fault) => target_text(fault),
            Refusal::Plan(fault) => plan_text(fault),
            Refusal::NotPublished { .. } => b"NotPublished",
            Refusal::StoreFault => b"StoreFault",
            Refusal::NoMemory => b"NoMemory",
        }
    }

    /// Whether what follows the head cannot be read, so that the reply is the last one.
    pub fn ends(self) -> bool
        ensures { result ≡ ends self }
    {
        match self {
            Refusal::BadHead | Refusal::HeadTooLarge | Refusal::HasBody => true,
            _ => false,
        }
    }
}

impl From<QueryFault> for Refusal {
    ghost from_gives = { λ fault result. result ≡ refusal_of fault };

    fn from(fault: QueryFault) -> Refusal {
        match fault {
            QueryFault::Plan(fault) => Refusal::Plan(fault),
            QueryFault::NotPublished { board } => Refusal::NotPublished { board },
            QueryFault::StoreFault { .. } => Refusal::StoreFault,
            QueryFault::NoMemory => Refusal::NoMemory,
        }
    }
}

/// The status of the reply to a target that cannot be read.
fn target_status(fault: TargetFault) -> u16
    ensures value { result ≡ target_status fault }
    ensures known { IsTrue (is_reply_status result) }
{
    match fault {
        TargetFault::OtherPath | TargetFault::OtherDataset => 404,
        _ => 400,
    }
}

/// The text of the reply to a target that cannot be read.
fn target_text(fault: TargetFault) -> &'static [u8]
    ensures { result.now ≡ target_text fault }
{
    match fault {
        TargetFault::OtherPath => b"OtherPath",
        TargetFault::BadText => b"BadText",
        TargetFault::DoubleParameter => b"DoubleParameter",
        TargetFault::NoAction => b"NoAction",
        TargetFault::UnknownAction => b"UnknownAction",
        TargetFault::NoDataset => b"NoDataset",
        TargetFault::OtherDataset => b"OtherDataset",
        TargetFault::NotRaw => b"NotRaw",
        TargetFault::UnknownField => b"UnknownField",
        TargetFault::BadTime => b"BadTime",
        TargetFault::BadBox => b"BadBox",
        TargetFault::BadLevels => b"BadLevels",
        TargetFault::NoMemory => b"NoMemory",
    }
}

/// The text of the reply to a question that has no plan.
fn plan_text(fault: PlanFault) -> &'static [u8]
    ensures { result.now ≡ plan_text fault }
{
    match fault {
        PlanFault::OutsideVolume { .. } => b"OutsideVolume",
        PlanFault::BadLevels { .. } => b"BadLevels",
        PlanFault::TooLarge { .. } => b"TooLarge",
        PlanFault::NoMemory => b"NoMemory",
    }
}
