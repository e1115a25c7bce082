//! Two links before one table of files.

use crate::bytes::{CLOSE, CONFIG, CREATE_ALL, OPEN, PURGE};
use crate::growing::{Growing, Trouble, at};
use crate::reading::look_at_files;
use crate::text::Text;
use dap_msg::item_at;
use dap_shared::SharedFiles;
use std::alloc::Global;

/// The buffer of the node.
const BUFFER: u16 = 1024;

/// Which link is sent which message.
pub const SHARED: &[(usize, &[u8])] = &[
    (0, CONFIG),
    (1, CONFIG),
    (0, CREATE_ALL),
    (1, OPEN),
    (1, CREATE_ALL),
    (0, CLOSE),
    (1, OPEN),
    (0, OPEN),
    (1, PURGE),
    (0, OPEN),
];

/// A table of files with two links, which are sent messages. The first call makes it.
#[derive(Drop)]
pub struct Sharing {
    alloc: Global,
    shared: Option<SharedFiles>,
    messages: &'static [(usize, &'static [u8])],
    answers: Text,
}

impl Sharing {
    pub fn new(alloc: Global, messages: &'static [(usize, &'static [u8])]) -> Sharing {
        Sharing {
            alloc,
            shared: None,
            messages,
            answers: Text::new(alloc),
        }
    }
}

impl Growing for Sharing {
    fn call(&mut self, index: usize) -> Result<(), Trouble> {
        let Some(shared) = &mut self.shared else {
            self.shared = Some(SharedFiles::new(self.alloc, BUFFER, 2)?);
            return Ok(());
        };
        let (link, message) = at(self.messages, index.saturating_sub(1))?;
        if link >= shared.links() {
            return Err(Trouble::Wrong);
        }
        self.answers.reserve()?;
        let (item, next) = item_at(message, 0);
        let served = shared.serve_item(link, item, next)?;
        self.answers.note_all("answer", &served.answers);
        Ok(())
    }

    fn look(&self, seen: &mut Text) {
        if let Some(shared) = &self.shared {
            look_at_files(shared.files(), seen);
        }
        seen.put(self.answers.as_slice());
    }
}
