//! Worked cases of scripts, of the programs that write and read records, and of what C is told.
#![tactic(auto)]

#[cfg(test)]
mod c_calls;
#[cfg(test)]
mod exchanges;
#[cfg(test)]
mod lines;
#[cfg(test)]
mod samples;
#[cfg(test)]
mod worked;
