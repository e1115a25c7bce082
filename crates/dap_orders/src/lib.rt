//! The lines of a schedule: the setup or event of each, and the first at fault.
#![tactic(auto)]

mod checking;
mod meaningful;
mod orders;

pub use checking::{check_orders, check_schedule};
pub use meaningful::MeaningfulLines;
pub use orders::{Order, read_order, read_setup};
