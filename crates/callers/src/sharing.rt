//! `dap_shared`: several links before one table of files.

use crate::trouble::{Lines, Trouble};
use dap_msg::item_at;
use dap_shared::SharedFiles;
use rec_file::Rights;
use std::alloc::Global;

/// A Configuration.
const HELLO: &[u8] = &[1, 2, 10, 0, 4, 7, 3, 5, 6, 0, 0, 0, 0];
/// An Access that makes the file `F`, for put.
const CREATES: &[u8] = &[3, 2, 8, 2, 0, 1, 0x46, 1, 0, 0, 0];
/// One that opens it, for get.
const OPENS: &[u8] = &[3, 2, 8, 1, 0, 1, 0x46, 2, 0, 0, 0];
/// The end of the access.
const CLOSES: &[u8] = &[7, 2, 2, 1, 0];

/// Which link is served, and the message.
const MESSAGES: &[(usize, &[u8])] = &[
    (0, HELLO),
    (1, HELLO),
    (0, CREATES),
    (1, OPENS),
    (0, CLOSES),
    (1, OPENS),
];

/// Serves a message of a link.
fn serve(
    shared: &mut SharedFiles,
    link: usize,
    message: &[u8],
    out: &mut Lines,
) -> Result<(), Trouble> {
    if link >= shared.links() {
        return Err(Trouble("a link"));
    }
    let (item, next) = item_at(message, 0);
    for answer in shared.serve_item(link, item, next)?.answers {
        out.line(format_args!("sharing: link {link}: an answer of {} bytes", answer.len()));
    }
    Ok(())
}

/// What is served then on a link that may only read: it can't make `F`.
const OF_A_READER: &[&[u8]] = &[HELLO, CREATES];

/// Drops the file `F`.
fn drop_file(shared: &mut SharedFiles, out: &mut Lines) {
    match shared.remove(b"F") {
        Ok(()) => out.line(format_args!("sharing: F is dropped")),
        Err(fault) => out.line(format_args!("sharing: F isn't dropped: {fault}")),
    }
}

/// Begins a link anew, on which an Access may only ask for GET: what it had open is closed.
fn begin_to_read(shared: &mut SharedFiles, link: usize) -> Result<(), Trouble> {
    if link >= shared.links() {
        return Err(Trouble("a link"));
    }
    shared.begin(
        link,
        Rights {
            get: true,
            put: false,
            upd: false,
            del: false,
        },
    );
    Ok(())
}

/// Serves two links, one message after another. Then drops the file, once the link that has it open begins anew.
pub fn call(alloc: Global, out: &mut Lines) -> Result<(), Trouble> {
    let mut shared = SharedFiles::new(alloc, 1024, 2)?;
    for (link, message) in MESSAGES {
        serve(&mut shared, *link, message, out)?;
    }
    drop_file(&mut shared, out);
    begin_to_read(&mut shared, 1)?;
    drop_file(&mut shared, out);
    for message in OF_A_READER {
        serve(&mut shared, 1, message, out)?;
    }
    out.line(format_args!("sharing: {} files", shared.files().count()));
    Ok(())
}
