//! Rows of the program `dapcap`: what its words and an input come to, inputs that are cut, and devices that fail.
#![tactic(auto)]

#[cfg(test)]
mod captures;
#[cfg(test)]
mod devices;
#[cfg(test)]
mod listed;
#[cfg(test)]
mod rows;
#[cfg(test)]
mod source;
#[cfg(test)]
mod spelling;
