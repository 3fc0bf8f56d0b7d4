//! Tests of the files of determinised acceptors at their bounds.
#![tactic(auto)]

#[cfg(test)]
mod answers;
#[cfg(test)]
mod checks;
#[cfg(test)]
mod example;
#[cfg(test)]
mod outputs;
