//! Tests of `dap_world`, `dap_capture` and `dap_cli`. They are a separate crate, since a crate with tests is proved twice.
#![tactic(auto)]

#[cfg(test)]
mod arguments;
#[cfg(test)]
mod captures;
#[cfg(test)]
mod devices;
#[cfg(test)]
mod engines;
#[cfg(test)]
mod schedules;
#[cfg(test)]
mod worlds;
