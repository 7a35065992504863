//! Rows of single calls of the layers, as tests: texts, and what the call says of each. There is no code of its own here.
#![tactic(auto)]

#[cfg(test)]
mod colors;
#[cfg(test)]
mod copied_declarations;
#[cfg(test)]
mod copied_values;
#[cfg(test)]
mod copies;
#[cfg(test)]
mod cycles;
#[cfg(test)]
mod matches;
#[cfg(test)]
mod names;
#[cfg(test)]
mod numbers;
#[cfg(test)]
mod numerics;
#[cfg(test)]
mod properties;
#[cfg(test)]
mod references;
#[cfg(test)]
mod syntaxes;
#[cfg(test)]
mod tokens;
