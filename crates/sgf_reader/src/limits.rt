// The limits of a text.

/// The most bytes that a text may have.
pub const MAX_FILE: u32 = 16_777_216;

/// The most brackets `(` that may be open at one time.
pub const MAX_OPEN: u32 = 1_024;

/// The most nodes that a game may have.
pub const MAX_NODES: u32 = 65_536;

/// The most games that a text may have.
pub const MAX_GAMES: u32 = 65_536;
