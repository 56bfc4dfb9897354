//! The tests of the libraries, by their public calls. They have a crate of their own because a
//! crate with tests is proved twice.
#![tactic(auto)]

#[cfg(test)]
mod devices;
#[cfg(test)]
mod field;
#[cfg(test)]
mod frame;
#[cfg(test)]
mod log;
#[cfg(test)]
mod logs;
#[cfg(test)]
mod margin;
#[cfg(test)]
mod sources_and_sinks;
#[cfg(test)]
mod tree;
#[cfg(test)]
mod values;
#[cfg(test)]
mod verdict;
