//! Calls that no table of runs and no run of the program shows: those that no command makes, forms that tell nothing, and what
//! the system does only at a chosen moment.
#![tactic(auto)]

#[cfg(test)]
mod header;
#[cfg(test)]
mod memory;
#[cfg(test)]
mod outside;
#[cfg(test)]
mod real;
#[cfg(test)]
mod walk;
