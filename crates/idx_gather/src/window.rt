ghost use Rattle.std.specs.Prelude.{◌≡◌, ◌≤◌, length};
ghost use Rattle.idx_layout.specs.Files.{length_of_file};
ghost use Rattle.idx_layout.specs.OfHeader.{placing_of};
ghost use Rattle.idx_gather.specs.Windows.{joins, run_count};

use idx_header::Header;
use idx_layout::file_len;

/// How many of these files make the next window: as many as fit into the room together, or one.
pub(crate) fn window_count(header: &Header, files: &[u64], room: u64) -> usize
    ensures count { result ≡ run_count (length_of_file (placing_of header.now)) room files.now }
    ensures within { result ≤ length files.now }
{
    let mut used = 0;
    for count in 0..files.len() {
        let more = file_len(header, files[count]);
        if !joins(count, used, more, room) {
            return count;
        }
        used += more;
    }
    files.len()
}

/// Whether so many more bytes join a run of so many things, which use so much of the room: they fit, or are the first.
pub(crate) fn joins(count: usize, used: u64, more: u64, room: u64) -> bool
    ensures { result ≡ joins count used more room }
{
    count == 0 || (more <= room && used <= room - more)
}
