//! Channels.

ghost use Rattle.std.specs.Prelude.{codes, map};
ghost use Rattle.serde_json.specs.View.{view};
ghost use Rattle.graph_reading.specs.Values.{all_read, value_under, list_in};
ghost use Rattle.graph_reading.specs.Graphs.{end_in, channel_label, channel_in};
ghost use Rattle.graph_reading.specs.Answers.{Answers};

use crate::values::{GraphFault, list_under, places_under, text_under};
use graph::Channel;
use label_reading::read_label;
use sam_base::Items;
use serde_json::Value;
use std::alloc::Global;
use stream_model::Label;

/// A block and one of its ports.
fn end(alloc: Global, value: &Value, key: &str) -> Result<(u32, u32), GraphFault>
    ensures { Answers (end_in key.now (view value.now)) result }
{
    let places = places_under(alloc, value, key)?;
    if places.len() == 2 {
        Ok((places.get(0) as u32, places.get(1) as u32))
    } else {
        Err(GraphFault::Refused)
    }
}

fn label(alloc: Global, value: &Value) -> Result<Label, GraphFault>
    ensures { Answers (channel_label (view value.now)) result }
{
    let text = match text_under(value, "label") {
        Some(text) => text,
        None => return Err(GraphFault::Refused),
    };
    match read_label(alloc, text.as_bytes()) {
        Ok(Some(label)) => Ok(label),
        Ok(None) => Err(GraphFault::Refused),
        Err(_) => Err(GraphFault::OutOfMemory),
    }
}

fn channel(alloc: Global, value: &Value) -> Result<Channel, GraphFault>
    ensures { Answers (channel_in (view value.now)) result }
{
    let from = end(alloc, value, "from")?;
    let label = label(alloc, value)?;
    let to = end(alloc, value, "to")?;
    Ok(Channel {
        from_block: from.0,
        from_port: from.1,
        to_block: to.0,
        to_port: to.1,
        label,
    })
}

fn channel_list(alloc: Global, list: &[Value]) -> Result<Items<Channel>, GraphFault>
    ensures { Answers (all_read (map (λ value. channel_in (view value)) list.now)) result }
{
    let mut channels = Vec::new(alloc);
    for value in list {
        match channel(alloc, value) {
            Ok(channel) => match channels.push(channel) {
                Ok(()) => {}
                Err(_) => return Err(GraphFault::OutOfMemory),
            },
            Err(fault) => return Err(fault),
        }
    }
    Ok(Items::from_vec(channels))
}

pub(crate) fn channels_under(alloc: Global, value: &Value) -> Result<Items<Channel>, GraphFault>
    ensures { Answers (value_under (codes "channels") (list_in channel_in) (view value.now)) result }
{
    match list_under(value, "channels") {
        None => Err(GraphFault::Refused),
        Some(list) => channel_list(alloc, list),
    }
}
