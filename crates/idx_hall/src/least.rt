/// The lists that a reply needs, and the reply itself, take so many bytes of memory at least, though most need fewer. The C
/// library keeps freed pieces of up to 1,032 bytes for each thread, up to seven of each size: of few sizes it keeps few.
pub const LEAST_BYTES: usize = 1024;
