//! How large texts may be.

/// How many bytes a text may have.
pub const MAX_TEXT: usize = 67_108_864;

/// How many scripts a text may have.
pub const MAX_SCRIPTS: usize = 4_096;

/// How many commands a script may have.
pub const MAX_COMMANDS: usize = 1_024;
