//! What stands in a value of JSON: numbers, texts and lists under keys.

ghost use Rattle.std.specs.Prelude.{◌≡◌, option_map, map};
ghost use Rattle.serde_json.specs.View.{view, items_view};
ghost use Rattle.serde_json.specs.Find.{as_array, as_str};
ghost use Rattle.graph_reading.specs.Values.{all_read, value_under, number_in, numbers_in, are_places, places_in, value_of};
ghost use Rattle.graph_reading.specs.Answers.{Answers, AnswersItems, AnswersValue};

use sam_base::Nums;
use serde_json::Value;
use std::alloc::Global;

/// Why a text gave no graph.
#[derive(Clone, Copy, Debug, PartialEq, Eq)]
pub enum GraphFault {
    /// It isn't JSON, or its value isn't of the form of a graph of the program.
    Refused,
    OutOfMemory,
}

/// The value that a text is.
pub(crate) fn read_value(alloc: Global, text: &[u8]) -> Result<Value, GraphFault>
    ensures { AnswersValue (value_of text.now) result }
{
    match Value::from_slice(alloc, text) {
        Ok(value) => Ok(value),
        Err(error) => {
            if error.is_memory() {
                Err(GraphFault::OutOfMemory)
            } else {
                Err(GraphFault::Refused)
            }
        }
    }
}

fn number(value: &Value) -> Option<u64>
    ensures { result ≡ number_in (view value.now) }
{
    value.as_u64()
}

fn numbers(alloc: Global, list: &[Value]) -> Result<Vec<u64>, GraphFault>
    ensures { AnswersItems (all_read (map (λ value. number_in (view value)) list.now)) result }
{
    let mut numbers = Vec::new(alloc);
    for value in list {
        match number(value) {
            Some(number) => match numbers.push(number) {
                Ok(()) => {}
                Err(_) => return Err(GraphFault::OutOfMemory),
            },
            None => return Err(GraphFault::Refused),
        }
    }
    Ok(numbers)
}

pub(crate) fn list_under<'v>(value: &'v Value, key: &str) -> Option<&'v [Value]>
    ensures { option_map (λ list. items_view list.now) result ≡ value_under key.now as_array (view value.now) }
{
    match value.get(key) {
        None => None,
        Some(found) => match found.as_array() {
            None => None,
            Some(list) => Some(list.as_slice()),
        },
    }
}

pub(crate) fn text_under<'v>(value: &'v Value, key: &str) -> Option<&'v str>
    ensures { option_map (λ text. text.now) result ≡ value_under key.now as_str (view value.now) }
{
    match value.get(key) {
        None => None,
        Some(found) => found.as_str(),
    }
}

pub(crate) fn numbers_under(alloc: Global, value: &Value, key: &str) -> Result<Vec<u64>, GraphFault>
    ensures { AnswersItems (value_under key.now numbers_in (view value.now)) result }
{
    match list_under(value, key) {
        None => Err(GraphFault::Refused),
        Some(list) => numbers(alloc, list),
    }
}

fn are_places(numbers: &[u64]) -> bool
    ensures { result ≡ are_places numbers.now }
{
    numbers.iter().all(|number| *number < 1 << 32)
}

/// Numbers of blocks, ports or channels, all below 2^32.
pub(crate) fn places_under(alloc: Global, value: &Value, key: &str) -> Result<Nums, GraphFault>
    ensures { Answers (value_under key.now places_in (view value.now)) result }
{
    let numbers = numbers_under(alloc, value, key)?;
    if are_places(&numbers) {
        Ok(Nums::from_vec(numbers))
    } else {
        Err(GraphFault::Refused)
    }
}
