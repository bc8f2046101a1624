ghost use Rattle.std.specs.Prelude.{◌≡◌, ◌<◌, ◌⊎◌, OnOk};
ghost use Rattle.idx_outside.specs.Cause.{NeverFalls, Rose};
ghost use Rattle.idx_outside.specs.Contents.{appended, AppendsPrefix};
ghost use Rattle.idx_commands.specs.Cause.{status_of};

use idx_commands::{Cause, Done};
use idx_outside::Sink;

const VERSION: &str = "idxtool 0.1.0\n";

const HELP: &str = "\
idxtool: samples, headers and files of ViSUS IDX data, with proved answers

  idxtool cut RAW SIZE BOX MASK REGION LO HI
      writes to standard output the samples of a region of a raw volume whose
      level is LO to HI, in row-major order, axis 0 fastest

      RAW     the file: the samples of BOX in row-major order, axis 0 fastest
      SIZE    bytes of a sample, 1 to 64
      BOX     inclusive bounds `lo hi` of each axis, axis 0 first, two to five
              pairs in one quoted word, as \"0 63 0 63 0 63\"
      MASK    V and a digit for each binary digit of a Z address, coarsest
              first: the axis that gives it, as V012012012012012012
      REGION  the part that is asked for, inside BOX, in one quoted word
      LO HI   the coarsest and the finest level, from 0 to the digits in MASK

  idxtool info DATASET
      writes to standard output what the header of a dataset says: its box, its
      mask, its levels, its blocks, its steps, and its fields with their types
      and the bytes of a sample

      DATASET  the header file, as run.idx

  idxtool convert DATASET RAW BOX FIELDS MASK BITS PERFILE TEMPLATE TIME STEP
                  [--ranks RANKS] [--layout rows|hz]
      writes a step of a dataset out of a raw volume: the files of the step, all
      at once, and the header where none stands. A header that stands has to
      agree. A step that stands is written again as a new revision, of 256 at
      most, and the newest one is read. Nothing else is changed

      DATASET   the header file, as run.idx; the files are written beside it
      RAW       the file: for each field the samples of BOX in row-major order,
                axis 0 fastest; at most 2^36 bytes in all, and at most 2^32 in
                each file of the step
      BOX       inclusive bounds `lo hi` of each axis, in one quoted word
      FIELDS    names and types, as \"density float32 + velocity float64[3]\";
                int8 to int64, uint8 to uint64, float32, float64
      MASK      as for cut, or auto: guessed of BOX
      BITS      a block has 2^BITS samples, 1 to 20
      PERFILE   blocks in a file, 1 to 65536
      TEMPLATE  the files' names, as ./%04x.bin: %0Nx is N hexadecimal digits of
                the number of the file's first block
      TIME      the first and the last step and the name of a step's folder, as
                \"0 99 time%04d/\": %0Nd is the step in N decimal digits
      STEP      the step that is written
      RANKS     how many ranks, each a worker thread, read and write; 1 to 256,
                else 1
      --layout  the order of the samples of a block in the files: rows, the
                row-major order of their points, or hz, hierarchical order;
                else hz

  idxtool query DATASET TIME FIELD REGION LO HI [--cache BLOCKS]
      writes to standard output the samples of a field of a step at the points
      of a region whose level is LO to HI, in row-major order, axis 0 fastest.
      It reads the tables of the step's files, and the blocks that hold a sample
      of the answer, and no others

      DATASET  the header file, as run.idx
      TIME     the number of the step
      FIELD    the name of the field
      REGION   inclusive bounds `lo hi` of each axis, inside the dataset's box,
               in one quoted word, as \"0 63 0 63 32 32\" for a slice
      LO HI    the coarsest and the finest level: 0 and a small HI for a coarse
               version, 0 and the dataset's levels for every sample, HI + 1 and
               a finer level for what a coarse version lacks
      BLOCKS   1 to 65536; no block is asked for twice, so it changes nothing

  idxtool check DATASET TIME
      says whether the files of a step, in its newest revision, are exactly those
      that convert writes for some volume, with --layout hz: it then writes `same
      files N bytes B` to standard output. Else it ends with status 16 and says
      which file is the first that is not, and from which byte on

      DATASET  the header file, as run.idx
      TIME     the number of the step

  idxtool serve DATASET ADDRESS [--cache BLOCKS] [--workers WORKERS]
                [--links LINKS] [--ingest STEP --raw RAW]
      answers, over HTTP at ADDRESS, GET /mod_visus?action=boxquery&dataset=NAME
      &box=0+63+0+63+0+63 with the samples of the box between two levels, as
      query writes them, out of the steps that stand when it begins. It says on
      standard error where it listens

      DATASET  the header file, as run.idx; NAME is its last part without .idx
      ADDRESS  as 127.0.0.1:8080 or [::1]:8080; port 0 takes a free one
      BLOCKS   how many blocks the cache keeps, 1 to 65536, else 64; no more
               than have 2^31 bytes in all
      WORKERS  how many connections are served side by side, 1 to 64, else 1
      LINKS    how many connections are served; then it writes `links N replies
               Q` to standard output and ends. Else it serves until it is stopped
      STEP RAW meanwhile, the step is written out of this raw volume, as convert
               writes it, and published: questions from then on see it

      A request may also have &time=, else the first step, &field=, else the first
      field, and &fromh= and &toh=, the coarsest and the finest level, else 0 and
      the dataset's levels

  idxtool drill NUMBER
      tries all of this in memory: makes a volume of 2^NUMBER bytes on each of
      three axes, writes it as a step with four ranks, each a worker thread,
      publishes it and asks for each of its levels; then does the same again,
      event by event. It writes to standard output the box, for each level its
      samples and the sum of their bytes, the files and their bytes, how many
      blocks were read, and how many events there were

      NUMBER   1 to 8

  idxtool --help
  idxtool --version

Exit statuses: 0 all was written, 1 wrong words, 2 a header is refused, 3 RAW
has another size, 4 RAW could not be read, 5 DATASET could not be read or
written, 6 all 256 revisions of the step stand or another header stands, 7 the
step does not stand, 8 no such field, region, levels or step, or too many bytes,
9 standard output did not take all, 10 the table of a file of DATASET is wrong,
11 not enough memory, 12 ADDRESS cannot be listened at, or no further connection
could be accepted, 16 a file of the step is not as convert writes it.
";

/// The text that a list of words asks for, if it is `--help` or `--version` alone.
pub fn text_asked_for(words: &[String]) -> Option<&'static str> {
    let [word] = words else {
        return None;
    };
    match word.as_str() {
        "--help" => Some(HELP),
        "--version" => Some(VERSION),
        _ => None,
    }
}

/// Writes a text. It ends with status 0, or with 9 where the sink did not take all.
pub fn write_text<K: Sink>(out: &mut K, text: &str) -> Done
    ensures done { result.cause ≡ Cause.Done → K.contents out.new ≡ appended (K.contents out.old) text.now }
    ensures cut_off { result.cause ≡ Cause.SinkFault →
        AppendsPrefix (K.contents out.old) (K.contents out.new) text.now }
    ensures status { result.status ≡ status_of result.cause }
    ensures only { (result.cause ≡ Cause.Done) ⊎ (result.cause ≡ Cause.SinkFault) }
    ensures cause { result.cause ≡ Cause.SinkFault → Rose (K.faults out.old) (K.faults out.new) }
    ensures answered { K.faults out.old < K.faults out.new → result.cause ≡ Cause.SinkFault }
{
    match out.write(text.as_bytes()) {
        Ok(()) => Done::of(Cause::Done),
        Err(_) => Done::of(Cause::SinkFault),
    }
}
