//! Requests as the words of a line.

use crate::growing::Trouble;
use dap_accessing::Request;
use dap_text::read_request;
use std::alloc::Global;
use texts::Words;

/// Returns the request that words say.
pub fn request(alloc: Global, words: &str) -> Result<Request, Trouble> {
    match read_request(Words::of(words.as_bytes())) {
        Some(asked) => Ok(asked.to_request(alloc)?),
        None => Err(Trouble::Wrong),
    }
}
