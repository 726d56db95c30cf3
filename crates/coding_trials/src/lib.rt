//! Trials of the coders on many displacements and rows.
#![tactic(auto)]

#[cfg(test)]
mod tests;
