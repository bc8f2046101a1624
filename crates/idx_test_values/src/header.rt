//! Canonical texts of headers, which no command prints.
use idx_header::Header;
use idx_outside::Bytes;
use std::alloc::Global;

/// Headers and their canonical texts: one as the documentation of OpenVisus shows it, with trailing pairs, attribute words, two
/// digits in the template and a key that has no effect, which stands behind the others then; one as PIDX writes it, with the
/// line ends of another system; and one with odd blanks between its fields.
static TEXTS: [(&[u8], &[u8]); 3] = [
    (
        b"(version)\n6\n(box)\n0 511 0 511 0 0 0 0 0 0\n(fields)\n\
        DATA uint8[3] default_compression(zip) default_layout(hzorder) min(0) max(255)\n(bits)\n\
        V010101010101010101\n(bitsperblock)\n16\n(blocksperfile)\n4\n(interleave block)\n0\n\
        (filename_template)\n./%02x.bin\n(time)\n0 0 time%01d/\n",
        b"(version)\n6\n(box)\n0 511 0 511\n(fields)\n\
        DATA uint8[3] default_compression(zip) default_layout(hzorder) min(0) max(255)\n(bits)\n\
        V010101010101010101\n(bitsperblock)\n16\n(blocksperfile)\n4\n\
        (filename_template)\n./%02x.bin\n(time)\n0 0 time%01d/\n(interleave block)\n0\n",
    ),
    (
        b"(version)\r\n6\r\n(box)\r\n0 63 0 63 0 63 0 0 0 0\r\n(fields)\r\np 1*float64 +\r\nv 3*float64\r\n\
        (bits)\r\nV012012012012012012\r\n(bitsperblock)\r\n15\r\n(blocksperfile)\r\n256\r\n\
        (filename_template)\r\n./out/%02x/%04x.bin\r\n(time)\r\n0 10 time%09d/\r\n",
        b"(version)\n6\n(box)\n0 63 0 63 0 63\n(fields)\np float64\n+ v float64[3]\n\
        (bits)\nV012012012012012012\n(bitsperblock)\n15\n(blocksperfile)\n256\n\
        (filename_template)\n./out/%02x/%04x.bin\n(time)\n0 10 time%09d/\n",
    ),
    (
        b"(version)\n6\n(box)\n0 3 0 3\n(fields)\n\
        p 1*float64  +\tDATA int16[3] default_compression(zip)  min(0) max(9)+q uint8 \n(bits)\nV0101\n\
        (bitsperblock)\n2\n(blocksperfile)\n2\n(filename_template)\n./%01x.bin\n",
        b"(version)\n6\n(box)\n0 3 0 3\n(fields)\n\
        p float64\n+ DATA int16[3] default_compression(zip) min(0) max(9)\n+ q uint8\n(bits)\nV0101\n\
        (bitsperblock)\n2\n(blocksperfile)\n2\n(filename_template)\n./%01x.bin\n",
    ),
];

/// What a copy of the header of a text writes.
fn rewritten(alloc: Global, text: &[u8]) -> Option<Bytes> {
    let copy = Header::read(alloc, text).ok()?.copy(alloc).ok()?;
    let mut out = Bytes::new(alloc);
    copy.write(&mut out).ok()?;
    Some(out)
}

/// Whether the header of a text is written so.
fn is_written(alloc: Global, text: &[u8], wanted: &[u8]) -> bool {
    match rewritten(alloc, text) {
        Some(out) => out.as_slice() == wanted,
        None => false,
    }
}

#[test]
fn headers_are_written_in_canonical_form(rt: HostRuntime) {
    for &(text, wanted) in &TEXTS {
        assert!(rt; is_written(rt.alloc(), text, wanted));
        assert!(rt; is_written(rt.alloc(), wanted, wanted));
    }
}
