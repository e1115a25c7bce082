//! What is left of the streams where they end: parts, and gaps.

ghost use Rattle.std.specs.Prelude.{◌≡◌, OnOk};
ghost use Rattle.texts.specs.Adding.{Adds};
ghost use Rattle.dap_follow.specs.Keeping.Rest.{kept_gap, kept_part, kept_rest, rest_if, rest_of_each};
ghost use Rattle.dap_follow.specs.Keeping.Endings.{is_chosen};

use crate::ending::Ending;
use crate::kept::{Kept, KeptSegments};
use crate::streams::{Stream, Streams};
use crate::text::{push_piece, push_range, push_stream};
use std::alloc::{AllocError, Global};
use texts::push_str;

/// Appends the line of a part, unless its messages are listed.
fn push_part(
    text: &mut Vec<u8>,
    stream: &Stream,
    kept: &Kept,
    bytes: &mut Vec<u8>,
) -> Result<(), AllocError>
    ensures { OnOk result (Adds text.old text.new (kept_part stream.now kept.now)) }
{
    if kept.listed {
        return Ok(());
    }
    kept.gather(bytes)?;
    push_str(text, "part")?;
    push_stream(text, stream)?;
    push_piece(text, kept.from, kept.to, bytes)
}

/// Appends the sequence numbers that are missing between some and those after them.
fn push_gap(
    text: &mut Vec<u8>,
    stream: &Stream,
    kept: &Kept,
    others: &[Kept],
) -> Result<(), AllocError>
    ensures { OnOk result (Adds text.old text.new (kept_gap stream.now kept.now others.now)) }
{
    let Some(next) = others.first() else {
        return Ok(());
    };
    if next.from <= kept.to || next.from - kept.to == 1 {
        return Ok(());
    }
    push_str(text, "gap")?;
    push_stream(text, stream)?;
    push_range(text, kept.to + 1, next.from - 1)?;
    push_str(text, "\n")
}

/// Appends the parts of a stream, and the gaps between parts and listed messages.
fn push_rest(
    text: &mut Vec<u8>,
    stream: &Stream,
    kept: &[Kept],
    bytes: &mut Vec<u8>,
) -> Result<(), AllocError>
    ensures { OnOk result (Adds text.old text.new (kept_rest stream.now kept.now)) }
{
    let mut rest = kept;
    while let [one, others @ ..] = rest {
        push_part(text, stream, one, bytes)?;
        push_gap(text, stream, one, others)?;
        rest = others;
    }
    Ok(())
}

/// Appends what is left of a stream, if it ends.
fn push_if_ending(
    text: &mut Vec<u8>,
    ending: Ending,
    stream: &Stream,
    segments: &KeptSegments,
    bytes: &mut Vec<u8>,
) -> Result<(), AllocError>
    ensures { OnOk result (Adds text.old text.new
        (rest_if (is_chosen ending (stream.now, segments.now)) stream.now segments.now.kept.items)) }
{
    if ending.has(stream, segments) {
        return push_rest(text, stream, &segments.kept, bytes);
    }
    Ok(())
}

/// Appends what is left of each stream that ends.
pub(crate) fn push_ending(
    alloc: Global,
    text: &mut Vec<u8>,
    streams: &Streams,
    ending: Ending,
) -> Result<(), AllocError>
    ensures { OnOk result (Adds text.old text.new
        (rest_of_each (is_chosen ending) streams.now.live.entries)) }
{
    let mut bytes = Vec::new(alloc);
    let mut at = 0;
    while at < streams.live.len() {
        let Some((stream, segments)) = streams.live.get_index(at) else {
            return Ok(());
        };
        push_if_ending(text, ending, stream, segments, &mut bytes)?;
        at += 1;
    }
    Ok(())
}
