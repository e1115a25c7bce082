//! A program for the gate: calls of every library where memory is refused, bytes were altered, and devices fail.
//!
//! Without input all of it is run. With any input only the calls that allocate are made, for an allocator that
//! refuses: a call that is out of memory is made again, and no reader may return another value than before it. The
//! status is then 0, or 4 where a call was out of memory twice, or 3 where this program itself was; 1 says that
//! something went wrong.
#![tactic(auto)]

mod altered;
mod bytes;
mod captures;
mod devices;
mod ends;
mod files;
mod growing;
mod links;
mod listings;
mod peers;
mod reading;
mod requests;
mod sharing;
mod text;
mod worlds;
mod writers;

use altered::{alter_all, alter_heard, alter_received, alter_served};
use captures::{Frames, alter_files};
use dap_world::WorldSetup;
use devices::{read_all, write_all};
use ends::{ASKED_RECORDS, ASKED_STORING, ASKED_TRANSFER, Asking, Line, Serving};
use files::{Act, BY_NUMBER, Filing, IN_ORDER, RELATIVE, SEQUENTIAL};
use growing::{Ending, Seen, Trouble, make_all};
use links::Links;
use listings::{ENGINES, Listing, Row, WORDS};
use peers::Peers;
use sharing::{SHARED, Sharing};
use std::alloc::Global;
use std::io::{Read, Stdout};
use std::process::ExitCode;
use text::Text;
use worlds::{Directing, LOST, Playing, SETTLING, STOPPING, Script};
use writers::Writers;

/// What is done to files of an organization.
const FILES: &[(&str, u8, &[Act])] = &[
    ("a sequential file", SEQUENTIAL, IN_ORDER),
    ("a relative file", RELATIVE, BY_NUMBER),
];

/// What an end is sent.
const SERVED: &[(&str, &[&[u8]])] = &[
    ("serving records", bytes::RECORDS),
    ("serving a store", bytes::STORING),
    ("serving an update", bytes::UPDATING),
];

/// What is asked of an end, and heard.
const ASKED: &[(&str, &[Line])] = &[
    ("asking for records", ASKED_RECORDS),
    ("asking for a store", ASKED_STORING),
    ("asking for a transfer", ASKED_TRANSFER),
];

/// Both buffers of 1,024 bytes.
const ROOMY: WorldSetup = WorldSetup {
    seg_size: 512,
    window: 8,
    bufsiz_a: 1024,
    bufsiz_b: 1024,
};

/// A takes no more than 64 bytes.
const NARROW: WorldSetup = WorldSetup {
    bufsiz_a: 64,
    ..ROOMY
};

/// Many segments, and few on their way.
const SMALL: WorldSetup = WorldSetup {
    seg_size: 1,
    window: 4,
    ..ROOMY
};

/// What happens in worlds, and whether their wires are shown.
const WORLDS: &[(&str, WorldSetup, Script, bool)] = &[
    ("a world with losses", ROOMY, LOST, true),
    ("a world with a transfer", NARROW, STOPPING, true),
    (
        "a world that is settled and finished",
        SMALL,
        SETTLING,
        false,
    ),
];

/// Listings and schedules, as calls of the library and as words of the program.
const LISTED: &[(&str, &[Row])] = &[
    ("listings and a schedule", ENGINES),
    ("words of the program", WORDS),
];

/// What is said of runs over readers, and over writers.
const READERS: &[u8] = b" readers that fail, give little or never end:";

const WRITERS: &[u8] = b" writers that fail, take little or nothing:";

/// Makes the calls on files.
fn grow_files(alloc: Global, seen: &mut Seen) -> Result<(), Ending> {
    for (name, org, acts) in FILES {
        make_all(name, Filing::new(alloc, *org, acts)?, seen)?;
    }
    Ok(())
}

/// Makes the calls on links.
fn grow_links(alloc: Global, seen: &mut Seen) -> Result<(), Ending> {
    make_all("a link", Links::new(alloc), seen)?;
    make_all("both ends", Peers::new(alloc), seen)
}

/// Makes the calls on ends that are sent messages.
fn grow_serving(alloc: Global, seen: &mut Seen) -> Result<(), Ending> {
    for (name, messages) in SERVED {
        make_all(name, Serving::new(alloc, messages), seen)?;
    }
    make_all("sharing files", Sharing::new(alloc, SHARED), seen)
}

/// Makes the calls on clients.
fn grow_asking(alloc: Global, seen: &mut Seen) -> Result<(), Ending> {
    for (name, lines) in ASKED {
        make_all(name, Asking::new(alloc, lines), seen)?;
    }
    Ok(())
}

/// Makes the calls on worlds.
fn grow_worlds(alloc: Global, seen: &mut Seen) -> Result<(), Ending> {
    for (name, setup, script, shows_wires) in WORLDS {
        let playing = Playing::new(alloc, *setup, script, *shows_wires);
        make_all(name, playing, seen)?;
    }
    Ok(())
}

/// Makes the call on a world that is directed.
fn grow_directed(alloc: Global, seen: &mut Seen) -> Result<(), Ending> {
    let directing = Directing::new(alloc, ROOMY);
    make_all("a world that is directed", directing, seen)
}

/// Runs the listings and the words of the program.
fn grow_listings(alloc: Global, seen: &mut Seen) -> Result<(), Ending> {
    for (name, rows) in LISTED {
        make_all(name, Listing::new(alloc, rows)?, seen)?;
    }
    Ok(())
}

/// Makes all growing calls, and writes what the readers answer in the end.
fn grow(alloc: Global, seen: &mut Seen) -> Result<(), Ending> {
    make_all("writers", Writers::new(alloc)?, seen)?;
    grow_files(alloc, seen)?;
    grow_links(alloc, seen)?;
    grow_serving(alloc, seen)?;
    grow_asking(alloc, seen)?;
    grow_worlds(alloc, seen)?;
    grow_directed(alloc, seen)?;
    make_all("capture files", Frames::new(alloc), seen)?;
    grow_listings(alloc, seen)
}

/// Alters messages, packets and answers, and prints what became of them.
fn alter(alloc: Global, text: &mut Text) -> Result<(), Trouble> {
    alter_all(alloc, false)?.note("altered messages", text);
    alter_all(alloc, true)?.note("altered packets", text);
    alter_served(alloc)?.note("altered messages served", text);
    alter_heard(alloc)?.note("altered answers read", text);
    alter_received(alloc, text)?.note("altered packets received", text);
    alter_files(alloc)?.note("altered capture files", text);
    Ok(())
}

/// Prints how many runs there were.
fn note_runs(what: &[u8], runs: u64, text: &mut Text) {
    text.put(what);
    text.show(&runs);
    text.put(b" runs\n");
}

/// Runs the listings over devices at fault, and prints how many runs that were.
fn fail_devices(alloc: Global, text: &mut Text) -> Result<(), Trouble> {
    for (name, rows) in LISTED {
        text.put(name.as_bytes());
        text.put(b", devices at fault:\n");
        note_runs(READERS, read_all(alloc, rows)?, text);
        note_runs(WRITERS, write_all(alloc, rows)?, text);
    }
    Ok(())
}

/// Alters bytes and fails devices, and writes what was printed until the end, or until something went wrong.
fn go_wrong(alloc: Global, out: &mut Stdout) -> Result<(), Ending> {
    let mut text = Text::new(alloc);
    text.reserve()?;
    let mut done = alter(alloc, &mut text);
    if done.is_ok() {
        done = fail_devices(alloc, &mut text);
    }
    text.write(out)?;
    Ok(done?)
}

/// Runs all of it, or with any input the growing calls alone.
fn run(rt: HostRuntime) -> Result<(), Ending> {
    let alloc = rt.alloc();
    let mut word = [0; 16];
    let is_growth_alone = rt.stdin().read(&mut word)? > 0;
    let mut seen = Seen::new(alloc, rt.stdout(), rt.stderr())?;
    grow(alloc, &mut seen)?;
    if is_growth_alone {
        return Ok(());
    }
    go_wrong(alloc, &mut rt.stdout())
}

fn main(rt: HostRuntime) -> ExitCode {
    match run(rt) {
        Ok(()) => ExitCode::SUCCESS,
        Err(Ending::Twice) => ExitCode::from(4),
        Err(Ending::UnreadyTwice) => ExitCode::from(3),
        Err(Ending::Unable) => {
            let _ = eprintln!(rt; "no memory to begin with, or nothing can be written");
            ExitCode::from(3)
        }
        Err(Ending::Changed | Ending::Wrong) => ExitCode::FAILURE,
    }
}
