// What an importer asks before it publishes a version.

/// Asked before each version is published. A gate may hold the importer as long as it likes: a test
/// lets searches go on meanwhile, and a program's gate stands open.
pub trait Gate: Drop {
    /// Returns when the version with this number may be published.
    fn hold(&self, number: u64);
}

/// A gate that returns at once.
#[derive(Clone, Copy, Debug, Drop)]
pub struct OpenGate;

impl Gate for OpenGate {
    fn hold(&self, _number: u64) {}
}
