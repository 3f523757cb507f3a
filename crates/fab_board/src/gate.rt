//! Calls that a caller hooks in before and after judgements, and before commits.

/// What a caller does before and after each judgement that is made ahead, and before each commit. For example, a test holds one judgement
/// back until another is made. `k` is the number that is judged or committed. Threads call the gate concurrently, and each call must
/// return. If nothing is judged ahead, one thread makes all calls, in this order: before a judgement, after it, before its commit.
pub trait Gate: Sync {
    fn before_judge(&self, k: u64);

    fn after_judge(&self, k: u64);

    fn before_commit(&self, k: u64);

    /// Whether the calls do nothing, so that nobody can find out whether, when or by which thread they are made. Only if this is true, a
    /// run may do without judging ahead, and may ask for the words of a move before it calls `before_judge` for it. A gate that counts,
    /// records or waits must return false.
    fn does_nothing(&self) -> bool {
        false
    }
}

/// The gate that does nothing.
#[derive(Clone, Copy, Debug)]
pub struct NoGate;

impl Gate for NoGate {
    fn before_judge(&self, _k: u64) {}

    fn after_judge(&self, _k: u64) {}

    fn before_commit(&self, _k: u64) {}

    fn does_nothing(&self) -> bool {
        true
    }
}
