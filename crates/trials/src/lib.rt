//! Trials of the searches against every polygon of many outlines.
#![tactic(auto)]

#[cfg(test)]
mod answers;
#[cfg(test)]
mod asked;
#[cfg(test)]
mod budgets;
#[cfg(test)]
mod distance;
#[cfg(test)]
mod edges;
#[cfg(test)]
mod every;
#[cfg(test)]
mod outlines;
#[cfg(test)]
mod ratio;
#[cfg(test)]
mod rows;
#[cfg(test)]
mod tally;
#[cfg(test)]
mod tests;
#[cfg(test)]
mod trial;
#[cfg(test)]
mod worked;
#[cfg(test)]
mod worked_kinds;
