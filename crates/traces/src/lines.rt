//! A line for each channel.

ghost use Rattle.std.specs.Prelude.{◌≡◌, ◌≤◌, ◌++◌, [], length, get_or, IfOk, OnOk};
ghost use Rattle.traces.specs.Traces.{spaced_tokens, channel_line, lines_of};

use itoa::Buffer;
use sam_base::Name;
use std::alloc::{AllocError, Global};
use stepper::KeepAll;
use stream_tokens::{Stream, stream_text};

/// Appends each token behind a space.
fn append_tokens(alloc: Global, text: &mut Name, tokens: &Stream) -> Result<(), AllocError>
    ensures { OnOk result (text.new ≡ text.old ++ spaced_tokens tokens.now) }
{
    if tokens.len() == 0 {
        return Ok(());
    }
    text.push(b' ')?;
    text.append(stream_text(alloc, tokens)?.as_bytes())
}

/// Appends the line of a channel: its number and a colon, and then each token behind a space.
fn append_line(
    alloc: Global,
    text: &mut Name,
    channel: u32,
    tokens: &Stream,
) -> Result<(), AllocError>
    ensures { OnOk result (text.new ≡ text.old ++ channel_line channel tokens.now) }
{
    let mut digits = Buffer::new();
    text.append(digits.format(channel).as_bytes())?;
    text.push(b':')?;
    append_tokens(alloc, text, tokens)?;
    text.push(b'\n')
}

/// A line for each of so many channels, ascending, with what was put on it.
pub(crate) fn channel_lines(
    alloc: Global,
    kept: &KeepAll,
    channels: u32,
) -> Result<Name, AllocError>
    requires { channels ≤ length kept.now }
    ensures { IfOk result (λ text. text ≡ lines_of channels (λ c. get_or kept.now c [])) }
{
    let mut text = Name::new(alloc);
    for channel in 0..channels {
        append_line(alloc, &mut text, channel, kept.stream(channel))?;
    }
    Ok(text)
}
