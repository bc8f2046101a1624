use crate::convert_words::ConvertWords;
use crate::cut_words::CutWords;
use crate::query_words::QueryWords;
use crate::serve_words::ServeWords;

/// A command with the values that its words stand for.
#[derive(Debug, Drop)]
pub enum Command<'w> {
    /// `cut RAW SIZE BOX MASK REGION LO HI`
    Cut(CutWords),
    /// `info DATASET`
    Info,
    /// `convert DATASET RAW BOX FIELDS MASK BITS PERFILE TEMPLATE TIME STEP [--ranks RANKS] [--layout rows|hz]`
    Convert(ConvertWords<'w>),
    /// `query DATASET TIME FIELD REGION LO HI [--cache BLOCKS]`
    Query(QueryWords<'w>),
    /// `check DATASET TIME`
    Check {
        /// TIME, the number of the step.
        time: u64,
    },
    /// `serve DATASET ADDRESS [--cache BLOCKS] [--workers WORKERS] [--links LINKS] [--ingest STEP --raw RAW]`
    Serve(ServeWords<'w>),
    /// `drill NUMBER`
    Drill {
        /// The number, 1 to 8.
        number: u32,
    },
}
