//! What no clause says: values from the document's examples, and that each call can succeed.

mod blocked;
mod codes;
mod faults;
mod items;
mod limits;
mod written;
