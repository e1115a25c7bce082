//! Requests, reports and files as text, written and read.
#![tactic(auto)]

mod answers;
mod fault;
mod filed;
mod kept;
mod laws;
mod reports;
mod requests;
mod tables;
mod words;

pub use answers::{ask_word, got_word};
pub use fault::FileFault;
pub use filed::{FileLine, RecordLine, read_file_line, read_record_line};
pub use laws::{files_are_read_back, records_are_read_back};
pub use reports::push_report;
pub use requests::{MAX_FAC, RequestText, read_request};
pub use tables::{FilesCursor, push_files, push_files_line};
pub use words::{Text, Texts, read_hex, read_text};
