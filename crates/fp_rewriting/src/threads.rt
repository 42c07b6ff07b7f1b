//! What may cross threads.
use crate::rules::RuleSet;

fn crosses_threads<T: Send + Sync>(_value: &T) {}

/// Rules may go from thread to thread, and threads may share them.
pub fn cross_threads(rules: &RuleSet) {
    crosses_threads(rules);
}
