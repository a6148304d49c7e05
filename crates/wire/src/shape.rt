ghost use Rattle.std.specs.Prelude.{◌≡◌, ℕ, List, [], ◌∷◌, ◌++◌, Result, Ok, IfOk, OnOk, length, map};
ghost use Rattle.items.specs.Gives.{Gives, err_map};
ghost use Rattle.serde_json.specs.Data.{Data};
ghost use Rattle.serde_json.specs.View.{items_of, items_view, members_view, view};
ghost use Rattle.serde_json.specs.Data.{put as with_member};
ghost use Rattle.wire.specs.Errors.{wrong_path};
ghost use Rattle.wire.specs.Written.{read_then};
ghost use Rattle.wire.specs.Shapes.{Path, field, item_path, items_from, member_of, member_path, under};

use crate::error::Wrong;
use items::Items;
use itoa::Buffer;
use serde_json::{Map, Value, push, put};
use std::alloc::{AllocError, Global};

/// What stands for a part of a JSON value.
pub(crate) trait Shape: Sized {
    ghost use Rattle.std.specs.Prelude.{Result};
    ghost use Rattle.serde_json.specs.Data.{Data};
    ghost use Rattle.wire.specs.Shapes.{Path};

    // The value of a part, or the path of the first wrong part in it.
    ghost reads: { Data → Result Self Path };

    /// Reads a part. The path of the first wrong part in it where it stands for nothing.
    fn read(alloc: Global, part: &Value) -> Result<Self, Wrong>
        ensures { Gives wrong_path (λ x. x) result (reads (view part.now)) };
}

/// What can be written as a part too.
pub(crate) trait Written: Shape {
    ghost use Rattle.serde_json.specs.Data.{Data};

    // What is written for a value.
    ghost writes: { Self → Data };

    /// Writes a value as a part, which reads as that value.
    fn write(&self, alloc: Global) -> Result<Value, AllocError>
        ensures written { IfOk result (λ part. view part ≡ writes self.now) }
        ensures back { IfOk result (λ part. Self.reads (view part) ≡ Ok self.now) };
}

/// A path behind the one that leads to its beginning.
fn joined_path(alloc: Global, step: &[u8], path: &[u8]) -> Result<Items<u8>, AllocError>
    ensures { IfOk result (λ whole. whole ≡ step.now ++ path.now) }
{
    let mut whole = Items::from_slice(alloc, step)?;
    whole.append(Items::from_slice(alloc, path)?)?;
    Ok(whole)
}

/// What was read of a part, told from what the part stands in.
fn under<T: Drop>(alloc: Global, step: &[u8], read: Result<T, Wrong>) -> Result<T, Wrong>
    ensures exact { (stated : Result T Path) → Gives wrong_path (λ x. x) read stated
        → Gives wrong_path (λ x. x) result (under step.now stated) }
    ensures kept { IfOk result (λ value. read ≡ Ok value) }
{
    match read {
        Ok(value) => Ok(value),
        Err(Wrong::At(path)) => Err(Wrong::At(joined_path(alloc, step, path.as_slice())?)),
        Err(Wrong::Memory) => Err(Wrong::Memory),
    }
}

/// What was read of the member with this name, told from the object.
pub(crate) fn under_key<T: Drop>(
    alloc: Global,
    key: &str,
    read: Result<T, Wrong>,
) -> Result<T, Wrong>
    ensures exact { (stated : Result T Path) → Gives wrong_path (λ x. x) read stated
        → Gives wrong_path (λ x. x) result (under (member_path key.now) stated) }
    ensures kept { IfOk result (λ value. read ≡ Ok value) }
{
    let step = member_path(alloc, key)?;
    under(alloc, step.as_slice(), read)
}

/// The member of an object with this name.
pub(crate) fn member<'a>(alloc: Global, part: &'a Value, key: &str) -> Result<&'a Value, Wrong>
    ensures { Gives wrong_path (λ value. view value.now) result
        (member_of key.now (view part.now)) }
{
    if !part.is_object() {
        return Err(Wrong::At(Items::new(alloc)));
    }
    match part.get(key) {
        Some(value) => Ok(value),
        None => Err(Wrong::At(member_path(alloc, key)?)),
    }
}

/// What the member of an object with this name stands for.
pub(crate) fn field<T: Shape + Drop>(alloc: Global, part: &Value, key: &str) -> Result<T, Wrong>
    ensures { Gives wrong_path (λ x. x) result (field key.now T.reads (view part.now)) }
{
    let value = member(alloc, part, key)?;
    under_key(alloc, key, T::read(alloc, value))
}

/// Puts what is written for a value under a key.
pub(crate) fn put_part<T: Written>(
    members: &mut Map<String, Value>,
    alloc: Global,
    key: &str,
    value: &T,
) -> Result<(), AllocError>
    ensures written { OnOk result
        (members_view members.new.entries ≡ with_member key.now (T.writes value.now)
        (members_view members.old.entries)) }
    ensures back { OnOk result (T.reads (T.writes value.now) ≡ Ok value.now) }
{
    let part = value.write(alloc)?;
    put(members, alloc, key, part)
}

fn member_path(alloc: Global, key: &str) -> Result<Items<u8>, AllocError>
    ensures { IfOk result (λ path. path ≡ member_path key.now) }
{
    joined_path(alloc, b"/", key.as_bytes())
}

/// What was read of the item at a place, told from the list.
pub(crate) fn item_under<T: Drop>(
    alloc: Global,
    place: usize,
    read: Result<T, Wrong>,
) -> Result<T, Wrong>
    ensures exact { (stated : Result T Path) → Gives wrong_path (λ x. x) read stated
        → Gives wrong_path (λ x. x) result (under (item_path place) stated) }
    ensures kept { IfOk result (λ value. read ≡ Ok value) }
{
    let mut digits = Buffer::new();
    let step = joined_path(alloc, b"/", digits.format(place).as_bytes())?;
    under(alloc, step.as_slice(), read)
}

impl<T: Shape + Drop> Shape for Items<T> {
    ghost use Rattle.wire.specs.Shapes.{list};

    ghost reads = { list T.reads };

    fn read(alloc: Global, part: &Value) -> Result<Items<T>, Wrong> {
        match part.as_array() {
            Some(parts) => items(alloc, parts.as_slice()),
            None => Err(Wrong::At(Items::new(alloc))),
        }
    }
}

impl<T: Written + Drop> Written for Items<T> {
    ghost use Rattle.wire.specs.Written.{list_data};

    ghost writes = { list_data T.writes };

    fn write(&self, alloc: Global) -> Result<Value, AllocError> {
        Ok(Value::Array(values(alloc, self.as_slice())?))
    }
}

/// Writes a value behind others.
#[tactic(auto, using(crate::proofs::Lists::written))]
fn add_part<T: Written>(alloc: Global, parts: &mut Vec<Value>, value: &T) -> Result<(), AllocError>
    ensures written { OnOk result
        (map view parts.new.items ≡ map view parts.old.items ++ T.writes value.now ∷ []) }
    ensures back { (rest : List T)
        → OnOk result
        (read_then T.reads (map view parts.new.items) rest
        ≡ read_then T.reads (map view parts.old.items) (value.now ∷ rest)) }
{
    let part = value.write(alloc)?;
    push(parts, part)
}

/// The parts that are written for a list.
#[tactic(auto, using(crate::proofs::Lists::written))]
fn values<T: Written>(alloc: Global, list: &[T]) -> Result<Vec<Value>, AllocError>
    ensures written { IfOk result
        (λ parts. items_view parts.items ≡ items_of (map T.writes list.now)) }
    ensures back { IfOk result (λ parts. items_from T.reads 0 (items_view parts.items)
        ≡ Ok list.now) }
{
    let mut parts = Vec::new(alloc);
    for value in list {
        add_part(alloc, &mut parts, value)?;
    }
    Ok(parts)
}

pub(crate) fn items<T: Shape + Drop>(alloc: Global, parts: &[Value]) -> Result<Items<T>, Wrong>
    ensures exact { Gives wrong_path (λ x. x) result (items_from T.reads 0 (items_view parts.now)) }
    ensures all { IfOk result (λ made. length made ≡ length parts.now) }
{
    let mut made = Items::new(alloc);
    for (place, part) in parts.iter().enumerate() {
        made.push(item_under(alloc, place, T::read(alloc, part))?)?;
    }
    Ok(made)
}

impl Shape for bool {
    ghost use Rattle.wire.specs.Shapes.{boolean};

    ghost reads = { boolean };

    fn read(alloc: Global, part: &Value) -> Result<bool, Wrong> {
        part.as_bool().ok_or(Wrong::At(Items::new(alloc)))
    }
}

impl Written for bool {
    ghost use Rattle.wire.specs.Written.{boolean_data};

    ghost writes = { boolean_data };

    fn write(&self, _alloc: Global) -> Result<Value, AllocError> {
        Ok(Value::Bool(*self))
    }
}

impl Shape for u32 {
    ghost use Rattle.wire.specs.Shapes.{small};

    ghost reads = { small };

    fn read(alloc: Global, part: &Value) -> Result<u32, Wrong> {
        let number = usize::read(alloc, part)?;
        u32::try_from(number).map_err(|_| Wrong::At(Items::new(alloc)))
    }
}

impl Written for u32 {
    ghost use Rattle.wire.specs.Written.{small_data};

    ghost writes = { small_data };

    fn write(&self, _alloc: Global) -> Result<Value, AllocError> {
        Ok(Value::from(*self))
    }
}

impl Shape for usize {
    ghost use Rattle.wire.specs.Shapes.{natural};

    ghost reads = { natural };

    fn read(alloc: Global, part: &Value) -> Result<usize, Wrong> {
        match part.as_u64() {
            Some(number) => Ok(number as usize),
            None => Err(Wrong::At(Items::new(alloc))),
        }
    }
}

impl Written for usize {
    ghost use Rattle.wire.specs.Written.{small_data};

    ghost writes = { small_data };

    fn write(&self, _alloc: Global) -> Result<Value, AllocError> {
        Ok(Value::from(*self))
    }
}
