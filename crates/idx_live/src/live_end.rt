use idx_ingest::IngestEnd;
use idx_serve::Summary;

/// How serving ended, and how gathering and publishing the step ended.
#[derive(Clone, Copy, Debug)]
pub struct Live {
    pub summary: Summary,
    pub ingested: IngestEnd,
}
