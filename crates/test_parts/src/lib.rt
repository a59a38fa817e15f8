//! Parts of the program by values of Rust: roundings, texts, tokens, streams, simulators, heaps, plans of large nets and of nets
//! whose sums are cut, searches, and files on disk: tests alone.
#![tactic(auto)]

#[cfg(test)]
mod adders;
#[cfg(test)]
mod cut;
#[cfg(test)]
mod cuts;
#[cfg(test)]
mod digits;
#[cfg(test)]
mod files;
#[cfg(test)]
mod gates;
#[cfg(test)]
mod heaps;
#[cfg(test)]
mod large;
#[cfg(test)]
mod least;
#[cfg(test)]
mod long;
#[cfg(test)]
mod numbers;
#[cfg(test)]
mod plans;
#[cfg(test)]
mod rows;
#[cfg(test)]
mod runs;
#[cfg(test)]
mod written;
