//! Rows that no document shows: streams that fail in mid-stream, as tests. There is no code of its own here.
#![tactic(auto)]

#[cfg(test)]
mod memory;
#[cfg(test)]
mod standard;
#[cfg(test)]
mod streams;
