//! Trials of records: written, read back, damaged.
#![tactic(auto)]

#[cfg(test)]
mod damaged;
#[cfg(test)]
mod lent;
#[cfg(test)]
mod told;
#[cfg(test)]
mod traced;
#[cfg(test)]
mod worked;
