//! The program with calls that fail, files that are too long, and other targets; an operator of every kind, made, run and
//! judged; texts that are read back; and definitions computed on small examples.
#![tactic(auto)]

#[cfg(test)]
mod calls;
#[cfg(test)]
mod delays;
#[cfg(test)]
mod documents;
#[cfg(test)]
mod extreme;
#[cfg(test)]
mod kinds;
#[cfg(test)]
mod long;
#[cfg(test)]
mod pages;
#[cfg(test)]
mod running;
#[cfg(test)]
mod targets;
#[cfg(test)]
mod texts;
#[cfg(test)]
mod third;
mod worked;

pub use worked::{definitions_compute, operators_compute};
