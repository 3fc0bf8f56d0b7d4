//! Tests of the book at its bounds.
#![tactic(auto)]

#[cfg(test)]
mod answers;
#[cfg(test)]
mod bounds;
#[cfg(test)]
mod example;
#[cfg(test)]
mod files;
#[cfg(test)]
mod order;
