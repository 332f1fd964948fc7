//! The exit statuses of the program.
//!
//! Every command ends with one of them. Contracts use the same numbers, in the specification `Statuses`.

/// All is done, and no test is undecided.
pub const DONE: u8 = 0;

/// All is done, and some test is undecided.
pub const LEFT_OPEN: u8 = 1;

/// The words are no command, or ask for help or the version.
pub const NO_COMMAND: u8 = 2;

/// A file cannot be read.
pub const UNREAD: u8 = 3;

/// A file cannot be stored, or the output cannot be printed.
pub const UNWRITTEN: u8 = 4;

/// An input is rejected, a file is too long, or the name of a file to store is given twice.
pub const REFUSED: u8 = 5;

/// The start set does not fit.
pub const START_UNFIT: u8 = 6;

/// No worker decides whether the start set fits.
pub const START_OPEN: u8 = 7;

/// Memory ran out.
pub const NO_MEMORY: u8 = 8;

/// A transcript's text is rejected, or a step of it cannot be verified.
pub const NOT_SHOWN: u8 = 9;

/// A transcript has no step of this number, the step is already decided, or the log does not settle it.
pub const NOT_SETTLED: u8 = 10;

/// All of a batch is done, and an auction of it ended at its start.
pub const SOME_UNSTARTED: u8 = 11;
