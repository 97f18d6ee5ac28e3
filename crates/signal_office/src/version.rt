//! The version of the program.

/// What `--version` prints. The version's number is that of CHANGELOG.md's newest version. The
/// state is the beginning of a checksum of all that the program's proof rests on. A build writes it
/// into the copy that it proves; in a trial and in the gate it is unknown.
pub(crate) const VERSION: &str = "signal_office 0.10.0 (tables of version 2, state unknown)\n";
