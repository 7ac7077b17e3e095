// What a command line can ask for.

/// What a command line asks for.
#[derive(Clone, Copy, Debug, PartialEq, Eq)]
pub enum Task {
    /// A run of a script.
    Run,
    /// An audit of a record.
    Audit,
}
