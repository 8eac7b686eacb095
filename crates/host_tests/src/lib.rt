//! What no clause says: that the host's files and streams move the right bytes.
#![tactic(auto)]

#[cfg(test)]
mod file_tests;
#[cfg(test)]
mod stream_tests;
