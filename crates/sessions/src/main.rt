//! Plays sessions from text files, whose lines are calls and their results. It prints how many cases each file has, and
//! each line with another result. The status is 1 then, 2 where a file can't be read, and 3 where memory ran out.
#![tactic(auto)]

mod asking;
mod call;
mod ends;
mod files;
mod links;
mod live;
mod out;
mod playing;
mod serving;
mod trouble;
mod worlds;

use asking::Asking;
use ends::Ending;
use files::Filing;
use links::Linking;
use live::Live;
use playing::{Script, Tally, play_all};
use serving::Serving;
use std::alloc::Global;
use std::process::ExitCode;
use std::{fs, io};
use trouble::Trouble;
use worlds::Worlds;

/// Plays a file by its suite.
fn play_file(alloc: Global, script: &Script, tally: &mut Tally) -> Result<(), Trouble> {
    match script.suite() {
        "files" => {
            let (file, streams) = (None, Vec::new(alloc));
            let here = 0;
            play_all(
                script,
                tally,
                Filing {
                    file,
                    streams,
                    here,
                },
            )
        }
        "links" => play_all(script, tally, Linking { end: None }),
        "serving" => play_all(script, tally, Serving { end: None }),
        "asking" => play_all(script, tally, Asking { end: None }),
        "ends" => {
            let (serving, asking) = (None, None);
            play_all(script, tally, Ending { serving, asking })
        }
        "live" => play_all(script, tally, Live::new(alloc)),
        "worlds" => {
            let (world, list) = (None, Vec::new(alloc));
            play_all(script, tally, Worlds { world, list })
        }
        _ => Err(Trouble::NoSuite),
    }
}

/// Plays the file of a name. Returns whether each line came to what it says.
fn play_named(rt: &HostRuntime, name: &str) -> Result<bool, Trouble> {
    let text = fs::read_to_string(rt, name)?;
    let script = Script::new(rt.alloc(), text.as_str())?;
    let mut tally = Tally::new(rt.stdout(), String::from_str(rt.alloc(), name)?);
    play_file(rt.alloc(), &script, &mut tally)?;
    tally.end()
}

/// Plays the files of these names, up to one that can't be played. Returns the exit status.
fn play_each(rt: &HostRuntime) -> io::Result<u8> {
    let mut status = 0;
    for name in std::env::args(rt)?.skip(1) {
        match play_named(rt, name.as_str()) {
            Ok(true) => {}
            Ok(false) => status = 1,
            Err(trouble) => {
                let _ = eprintln!(rt; "sessions: {name}: {trouble}");
                return Ok(trouble.status());
            }
        }
    }
    Ok(status)
}

fn main(rt: HostRuntime) -> ExitCode {
    match play_each(&rt) {
        Ok(status) => ExitCode::from(status),
        Err(_) => {
            let _ = eprintln!(rt; "sessions: the words are no text, or memory ran out");
            ExitCode::from(3)
        }
    }
}
