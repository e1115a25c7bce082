//! Both live ends: what a client or a server does by a line, and the text of its answer.
#![tactic(auto)]

mod answers;
mod ask_orders;
mod asking;
mod laws;
mod node;
mod node_orders;
mod orders;
mod rights;
mod sending;
mod used;

pub use ask_orders::AskOrder;
pub use asking::{Asking, Came};
pub use laws::inputs_have_one_text;
pub use node::Node;
pub use node_orders::NodeOrder;
pub use orders::{Between, read_address};
pub use used::Used;
