//! Tests of `dap_fields`, `nsp_seg`, `nsp_control`, `nsp_session`, `dap_msg` and `rec_file`. They are a separate crate, since a crate with tests is
//! proved twice.
#![tactic(auto)]

#[cfg(test)]
mod controls;
#[cfg(test)]
mod fields;
#[cfg(test)]
mod files;
#[cfg(test)]
mod messages;
#[cfg(test)]
mod segments;
