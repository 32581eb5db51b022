// How long a line and an input may be.

/// The bytes of a protocol's line, without its LF, at most.
pub const LONGEST_LINE: usize = 8192;

/// The bytes of a script's line, without its LF, at most.
pub const LONGEST_SCRIPT_LINE: usize = 16384;

/// The bytes of an input that is read line by line, at most.
pub const LONGEST_INPUT: usize = 1_073_741_824;
