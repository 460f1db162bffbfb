//! A graph's text.

ghost use Rattle.std.specs.Prelude.{◌≡◌, IfOk, IsUtf8};
ghost use Rattle.serde_json.specs.Data.{string};
ghost use Rattle.serde_json.specs.View.{view};
ghost use Rattle.stream_model.specs.Texts.{text_of_label};
ghost use Rattle.graph_json.specs.Spelled.{numbers_data, list_data, block_data, channel_data, graph_data, graph_text, NamesAreText};

use crate::tables::{kind_name, kind_numbers, kind_word};
use graph::{Block, Channel, Graph};
use sam_base::Name;
use sam_model::Program;
use serde_json::{Value, json};
use std::alloc::{AllocError, Global};
use stream_model::{Label, label_text};

fn numbers(alloc: Global, numbers: &[u64]) -> Result<Value, AllocError>
    ensures { IfOk result (λ value. view value ≡ numbers_data numbers.now) }
{
    let mut list = Vec::new(alloc);
    for number in numbers {
        list.push(Value::from(*number))?;
    }
    Ok(Value::Array(list))
}

fn text(alloc: Global, bytes: &[u8]) -> Result<Value, AllocError>
    requires { IsUtf8 bytes.now }
    ensures { IfOk result (λ value. view value ≡ string bytes.now) }
{
    match str::from_utf8(bytes) {
        Ok(text) => Value::try_from_str(alloc, text),
        Err(_) => unreachable!(),
    }
}

fn block_value(alloc: Global, p: &Program, block: &Block) -> Result<Value, AllocError>
    requires { NamesAreText p.now }
    ensures { IfOk result (λ value. view value ≡ block_data p.now block.now) }
{
    let arg = kind_numbers(alloc, block.kind)?;
    let ins = numbers(alloc, block.ins.as_slice())?;
    let name = text(alloc, kind_name(p, block.kind))?;
    let outs = numbers(alloc, block.outs.as_slice())?;
    json!(in alloc; {"arg": arg, "ins": ins, "kind": kind_word(block.kind), "name": name, "outs": outs})
}

fn block_list(alloc: Global, p: &Program, blocks: &[Block]) -> Result<Value, AllocError>
    requires { NamesAreText p.now }
    ensures { IfOk result (λ value. view value ≡ list_data (block_data p.now) blocks.now) }
{
    let mut list = Vec::new(alloc);
    for block in blocks {
        list.push(block_value(alloc, p, block)?)?;
    }
    Ok(Value::Array(list))
}

fn label_value(alloc: Global, label: Label) -> Result<Value, AllocError>
    ensures { IfOk result (λ value. view value ≡ string (text_of_label label)) }
{
    let words = label_text(alloc, &label)?;
    text(alloc, words.as_bytes())
}

fn channel_value(alloc: Global, channel: &Channel) -> Result<Value, AllocError>
    ensures { IfOk result (λ value. view value ≡ channel_data channel.now) }
{
    let label = label_value(alloc, channel.label)?;
    json!(in alloc; {
        "from": [channel.from_block, channel.from_port],
        "label": label,
        "to": [channel.to_block, channel.to_port],
    })
}

fn channel_list(alloc: Global, channels: &[Channel]) -> Result<Value, AllocError>
    ensures { IfOk result (λ value. view value ≡ list_data channel_data channels.now) }
{
    let mut list = Vec::new(alloc);
    for channel in channels {
        list.push(channel_value(alloc, channel)?)?;
    }
    Ok(Value::Array(list))
}

fn graph_value(alloc: Global, p: &Program, g: &Graph) -> Result<Value, AllocError>
    requires { NamesAreText p.now }
    ensures { IfOk result (λ value. view value ≡ graph_data p.now g.now) }
{
    let blocks = block_list(alloc, p, g.blocks.as_slice())?;
    let channels = channel_list(alloc, g.channels.as_slice())?;
    json!(in alloc; {"blocks": blocks, "channels": channels})
}

/// The JSON of a program's graph in compact form, with keys in ascending order, and a newline. A block has its kind with
/// the kind's numbers, the name of the tensor that it reads or of the result that it writes, and the channels at its ports; a
/// channel has its two ends, each a block and a port, and its label's text.
pub fn graph_text(alloc: Global, p: &Program, g: &Graph) -> Result<Name, AllocError>
    requires { NamesAreText p.now }
    ensures { IfOk result (λ text. text ≡ graph_text p.now g.now) }
{
    let value = graph_value(alloc, p, g)?;
    let mut bytes = value.to_vec(alloc)?;
    bytes.push(b'\n')?;
    Ok(Name::from_vec(bytes))
}
