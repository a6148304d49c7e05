/// The most bytes of an edit script, and of a text with values and turns, on which an execution is
/// followed.
pub const MOST_INPUT: usize = 8_388_608;

/// The most bytes of a certificate file.
pub const MOST_FILE: usize = 67_108_864;

/// How many bytes one read asks for.
pub const PIECE: usize = 65_536;
