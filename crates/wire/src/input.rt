ghost use Rattle.std.specs.Prelude.{◌≡◌, ◌≤◌, codes, length, IfOk};
ghost use Rattle.items.specs.Gives.{Gives};
ghost use Rattle.serde_json.specs.View.{items_view, view};
ghost use Rattle.wire.specs.Errors.{fault, wrong_path};
ghost use Rattle.wire.specs.Shapes.{field};
ghost use Rattle.wire.specs.Inputs.{input, input_of, listed_values, most_turns, most_values, turns, values};

use crate::FileText;
use crate::certificate::json;
use crate::error::{WireError, Wrong};
use crate::shape::{Shape, items, member, under_key};
use crate::text::source;
use items::Items;
use serde_json::Value;
use std::alloc::Global;

/// What one execution is followed on: a text, the values that its choices take, and the most steps.
#[derive(Debug, Drop)]
pub struct Input {
    pub text: FileText,
    pub values: Items<i128>,
    pub turns: u32,
}

/// The most values.
pub const MOST_VALUES: usize = 100_000;

/// The most steps.
pub const MOST_TURNS: u32 = 100_000;

#[tactic(auto, using(crate::proofs::JsonTexts::lengths))]
fn listed_values(alloc: Global, parts: &[Value]) -> Result<Items<i128>, Wrong>
    ensures exact { Gives wrong_path (λ x. x) result (listed_values (items_view parts.now)) }
    ensures few { IfOk result (λ values. length values ≤ most_values) }
{
    if parts.len() <= MOST_VALUES {
        items(alloc, parts)
    } else {
        Err(Wrong::At(Items::new(alloc)))
    }
}

fn values(alloc: Global, part: &Value) -> Result<Items<i128>, Wrong>
    ensures exact { Gives wrong_path (λ x. x) result (values (view part.now)) }
    ensures few { IfOk result (λ values. length values ≤ most_values) }
{
    match part.as_array() {
        Some(parts) => listed_values(alloc, parts.as_slice()),
        None => Err(Wrong::At(Items::new(alloc))),
    }
}

fn turns(alloc: Global, part: &Value) -> Result<u32, Wrong>
    ensures exact { Gives wrong_path (λ x. x) result (turns (view part.now)) }
    ensures within { IfOk result (λ turns. (1 ≤ turns) × (turns ≤ most_turns)) }
{
    let number = u32::read(alloc, part)?;
    if number >= 1 && number <= MOST_TURNS {
        Ok(number)
    } else {
        Err(Wrong::At(Items::new(alloc)))
    }
}

fn values_in(alloc: Global, file: &Value) -> Result<Items<i128>, Wrong>
    ensures exact { Gives wrong_path (λ x. x) result
        (field (codes "values") values (view file.now)) }
    ensures few { IfOk result (λ values. length values ≤ most_values) }
{
    let part = member(alloc, file, "values")?;
    under_key(alloc, "values", values(alloc, part))
}

fn turns_in(alloc: Global, file: &Value) -> Result<u32, Wrong>
    ensures exact { Gives wrong_path (λ x. x) result (field (codes "turns") turns (view file.now)) }
    ensures within { IfOk result (λ turns. (1 ≤ turns) × (turns ≤ most_turns)) }
{
    let part = member(alloc, file, "turns")?;
    under_key(alloc, "turns", turns(alloc, part))
}

fn input_parts(alloc: Global, file: &Value) -> Result<Input, Wrong>
    ensures exact { Gives wrong_path (λ x. x) result (input (view file.now)) }
    ensures few { IfOk result (λ input. length input.values ≤ most_values) }
    ensures within { IfOk result (λ input. (1 ≤ input.turns) × (input.turns ≤ most_turns)) }
{
    let text = source(alloc, file)?;
    let values = values_in(alloc, file)?;
    let turns = turns_in(alloc, file)?;
    Ok(Input {
        text,
        values,
        turns,
    })
}

/// Reads a text with values and a number of turns. `Json` where the bytes are no JSON text, `Shape`
/// with the first wrong part: `text`, then `values`, at most 100,000 decimal texts of 128 bits,
/// then `turns`, from 1 to 100,000.
pub fn read_replay(alloc: Global, bytes: &[u8]) -> Result<Input, WireError>
    ensures exact { Gives fault (λ x. x) result (input_of bytes.now) }
    ensures few { IfOk result (λ input. length input.values ≤ most_values) }
    ensures within { IfOk result (λ input. (1 ≤ input.turns) × (input.turns ≤ most_turns)) }
{
    let file = json(alloc, bytes)?;
    Ok(input_parts(alloc, &file)?)
}
