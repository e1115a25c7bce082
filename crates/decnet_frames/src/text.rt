//! The words of a frame: its number, and when it was captured.

ghost use Rattle.std.specs.Prelude.{◌≡◌, ◌<◌, ◌≤◌, ◌+◌, ◌*◌, ◌/◌, ◌^◌, OnOk};
ghost use Rattle.texts.specs.Adding.{Adds};
ghost use Rattle.decnet_frames.specs.Times.{digits_after_first, frame_text, parts_in_second as the_parts_in_second, seconds_text, shown_parts as the_shown_parts, time_text};

use capture_file::Time;
use itoa::Buffer;
use std::alloc::AllocError;
use texts::{push_decimal, push_number, push_str};

/// Resolutions from here on are powers of two.
const POWERS_OF_TWO: u8 = 128;

/// The maximum power of ten that 128 bits hold. A part of a second that is finer shows as none.
const MAX_POWER: u8 = 38;

/// The finest resolution whose times show with six digits.
const MICROSECONDS: u8 = 6;

/// Returns how many parts a second has.
fn parts_in_second(resolution: u8) -> u128
    ensures value { result ≡ the_parts_in_second resolution }
    ensures some { 0 < result }
{
    if resolution < POWERS_OF_TWO {
        10u128.pow(u32::from(resolution.min(MAX_POWER)))
    } else {
        2u128.pow(u32::from(resolution - POWERS_OF_TWO))
    }
}

/// Returns how many parts a second has that are shown.
fn shown_parts(resolution: u8) -> u64
    ensures { result ≡ the_shown_parts resolution }
{
    if resolution <= MICROSECONDS {
        1_000_000
    } else {
        1_000_000_000
    }
}

/// Appends the digits after the first one.
fn push_digits(text: &mut Vec<u8>, number: u64) -> Result<(), AllocError>
    ensures { OnOk result (Adds text.old text.new (digits_after_first number)) }
{
    let mut digits = Buffer::new();
    match digits.format(number).as_bytes() {
        [] => Ok(()),
        [_, others @ ..] => text.extend_from_slice(others),
    }
}

/// Returns how many of the shown parts of a second there are, rounded down.
fn scaled(parts: u128, in_second: u128, shown: u64) -> u64
    requires some { parts < in_second }
    requires parts { parts < 2 ^ 64 }
    requires shown { shown ≤ 1000000000 }
    ensures { result ≡ parts * shown / in_second }
{
    (parts * u128::from(shown) / in_second) as u64
}

/// Appends seconds and parts of a second.
fn push_seconds(
    text: &mut Vec<u8>,
    seconds: u64,
    parts: u128,
    in_second: u128,
    shown: u64,
) -> Result<(), AllocError>
    requires some { parts < in_second }
    requires parts { parts < 2 ^ 64 }
    requires shown { shown ≤ 1000000000 }
    ensures { OnOk result (Adds text.old text.new (seconds_text seconds parts in_second shown)) }
{
    if seconds >= 1 << 63 {
        return push_str(text, "-");
    }
    push_decimal(text, seconds)?;
    push_str(text, ".")?;
    push_digits(text, shown + scaled(parts, in_second, shown))
}

/// Appends when a frame was captured, in seconds since the beginning of 1970.
fn push_time(text: &mut Vec<u8>, time: Option<Time>) -> Result<(), AllocError>
    ensures { OnOk result (Adds text.old text.new (time_text time)) }
{
    let Some(time) = time else {
        return push_str(text, "-");
    };
    let parts = u128::from(time.parts);
    let in_second = parts_in_second(time.resolution);
    let whole = (parts / in_second) as u64;
    push_seconds(
        text,
        whole.wrapping_add(time.offset),
        parts % in_second,
        in_second,
        shown_parts(time.resolution),
    )
}

/// Appends `frame N TIME`.
pub(crate) fn push_frame(
    text: &mut Vec<u8>,
    number: u64,
    time: Option<Time>,
) -> Result<(), AllocError>
    ensures { OnOk result (Adds text.old text.new (frame_text number time)) }
{
    push_number(text, "frame ", number)?;
    push_str(text, " ")?;
    push_time(text, time)
}
