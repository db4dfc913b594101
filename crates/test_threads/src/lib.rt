//! Threads that meet: the lanes of a run, and passes at one lock. And streams, whose callers make the entries one
//! by one.
#![tactic(auto)]

#[cfg(test)]
mod counted;
#[cfg(test)]
mod meeting;
#[cfg(test)]
mod streams;
#[cfg(test)]
mod tests;
#[cfg(test)]
mod turns;
