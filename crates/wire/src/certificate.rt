ghost use Rattle.std.specs.Prelude.{◌≡◌, ◌<◌, Ok, IfOk, OnOk, codes};
ghost use Rattle.serde_json.specs.Written.{compact_text};
ghost use Rattle.wire.specs.declared.certificate.Version.TheVariants.{First, Second};
ghost use Rattle.wire.specs.Written.{IsOrder, IsWritable, certificate_data, first_data, list_data, second_data, small_data};
ghost use Rattle.std.specs.List.{AllByRecursion, range_with_len};
ghost use Rattle.items.specs.Gives.{Gives};
ghost use Rattle.serde_json.specs.Data.{put as with_member};
ghost use Rattle.serde_json.specs.View.{items_view, members_view, view};
ghost use Rattle.wire.specs.Errors.{fault, wrong_path};
ghost use Rattle.wire.specs.Files.{certificate_from, certificate_in, certificate_of, json_of, order_of, place, version_numbered, version_of};
ghost use Rattle.wire.specs.Shapes.{items_from, list};

use crate::FileText;
use crate::error::{WireError, Wrong};
use crate::shape::{Shape, Written, field, item_under, member, put_part, under_key};
use crate::text::source;
use farkas_check::Answer;
use items::Items;
use serde_json::{Map, Value, put};
use std::alloc::{AllocError, Global};

/// The forms of a certificate file.
#[derive(Clone, Copy, Debug, PartialEq, Eq)]
pub enum Version {
    /// Each question has its own answer, in posing order.
    First,
    /// Each answer stands once, and each question names the place of its answer.
    Second,
}

/// What an outsider checks: a text, the report on it, and the answers that show it.
#[derive(Debug, Drop)]
pub struct Certificate {
    pub version: Version,
    pub text: FileText,
    pub report: FileText,
    pub answers: Items<Answer>,
    /// The place in `answers` of the answer of each question, in posing order, from 0.
    pub order: Items<usize>,
}

/// The value of a JSON text.
#[tactic(auto, using(crate::proofs::JsonTexts::json_texts))]
pub(crate) fn json(alloc: Global, bytes: &[u8]) -> Result<Value, WireError>
    ensures { Gives fault view result (json_of bytes.now) }
{
    match Value::from_slice(alloc, bytes) {
        Ok(value) => Ok(value),
        Err(error) => {
            if error.is_memory() {
                Err(WireError::Memory)
            } else {
                Err(WireError::Json)
            }
        }
    }
}

fn version_numbered(number: usize) -> Result<Version, WireError>
    ensures { result ≡ version_numbered number }
{
    match number {
        1 => Ok(Version::First),
        2 => Ok(Version::Second),
        _ => Err(WireError::Version(number as u64)),
    }
}

/// The version of a file, which is looked at before all else.
fn file_version(alloc: Global, file: &Value) -> Result<Version, WireError>
    ensures { Gives fault (λ x. x) result (version_of (view file.now)) }
{
    if !file.is_object() {
        return Err(WireError::Shape(Items::new(alloc)));
    }
    match file.get("version") {
        Some(value) => version_numbered(under_key(alloc, "version", usize::read(alloc, value))?),
        None => Ok(Version::First),
    }
}

/// The places of answers that stand in posing order.
#[tactic(auto, using(crate::proofs::Lists::ranges))]
fn turns(alloc: Global, count: usize) -> Result<Items<usize>, AllocError>
    ensures { IfOk result (λ places. places ≡ range_with_len 0 count) }
{
    let mut places = Items::new(alloc);
    for place in 0..count {
        places.push(place)?;
    }
    Ok(places)
}

/// A place below the number of answers.
fn place(alloc: Global, part: &Value, count: usize) -> Result<usize, Wrong>
    ensures exact { Gives wrong_path (λ x. x) result (place count (view part.now)) }
    ensures below { IfOk result (λ place. place < count) }
{
    let place = usize::read(alloc, part)?;
    if place < count {
        Ok(place)
    } else {
        Err(Wrong::At(Items::new(alloc)))
    }
}

#[tactic(auto, using(crate::proofs::Places::appended))]
fn places(alloc: Global, parts: &[Value], count: usize) -> Result<Items<usize>, Wrong>
    ensures exact { Gives wrong_path (λ x. x) result
        (items_from (place count) 0 (items_view parts.now)) }
    ensures below { IfOk result (λ places. AllByRecursion (λ place. place < count) places) }
{
    let mut made = Items::new(alloc);
    for (number, part) in parts.iter().enumerate() {
        made.push(item_under(alloc, number, place(alloc, part, count))?)?;
    }
    Ok(made)
}

fn place_list(alloc: Global, part: &Value, count: usize) -> Result<Items<usize>, Wrong>
    ensures exact { Gives wrong_path (λ x. x) result (list (place count) (view part.now)) }
    ensures below { IfOk result (λ places. AllByRecursion (λ place. place < count) places) }
{
    match part.as_array() {
        Some(parts) => places(alloc, parts.as_slice(), count),
        None => Err(Wrong::At(Items::new(alloc))),
    }
}

/// The places that a file of the second version lists.
fn listed_order(alloc: Global, count: usize, file: &Value) -> Result<Items<usize>, Wrong>
    ensures exact { Gives wrong_path (λ x. x) result (order_of Second count (view file.now)) }
    ensures below { IfOk result (λ places. AllByRecursion (λ place. place < count) places) }
{
    let part = member(alloc, file, "order")?;
    under_key(alloc, "order", place_list(alloc, part, count))
}

/// Which answer each question has.
fn order(alloc: Global, version: Version, count: usize, file: &Value) -> Result<Items<usize>, Wrong>
    ensures exact { Gives wrong_path (λ x. x) result (order_of version count (view file.now)) }
    ensures is_order { IfOk result (IsOrder version count) }
{
    match version {
        Version::First => Ok(turns(alloc, count)?),
        Version::Second => listed_order(alloc, count, file),
    }
}

/// A file of a version.
fn certificate_parts(alloc: Global, version: Version, file: &Value) -> Result<Certificate, Wrong>
    ensures exact { Gives wrong_path (λ x. x) result (certificate_from version (view file.now)) }
    ensures writable { IfOk result IsWritable }
{
    let text = source(alloc, file)?;
    let report = field(alloc, file, "report")?;
    let answers: Items<Answer> = field(alloc, file, "answers")?;
    let order = order(alloc, version, answers.len(), file)?;
    Ok(Certificate {
        version,
        text,
        report,
        answers,
        order,
    })
}

/// A file, whose version is looked at first.
fn certificate_in(alloc: Global, file: &Value) -> Result<Certificate, WireError>
    ensures exact { Gives fault (λ x. x) result (certificate_in (view file.now)) }
    ensures writable { IfOk result IsWritable }
{
    let version = file_version(alloc, file)?;
    Ok(certificate_parts(alloc, version, file)?)
}

/// Reads a certificate file of either version. `Json` where the bytes are no JSON text, `Version`
/// where the file's version is not known, `Shape` with the first wrong part.
pub fn read_certificate(alloc: Global, bytes: &[u8]) -> Result<Certificate, WireError>
    ensures exact { Gives fault (λ x. x) result (certificate_of bytes.now) }
    ensures writable { IfOk result IsWritable }
{
    let file = json(alloc, bytes)?;
    certificate_in(alloc, &file)
}

/// A file of the first version as JSON.
fn first_value(alloc: Global, file: &Certificate) -> Result<Value, AllocError>
    requires version { file.now.version ≡ First }
    requires writable { IsWritable file.now }
    ensures written { IfOk result (λ part. view part ≡ first_data file.now) }
    ensures back { IfOk result (λ part. certificate_in (view part) ≡ Ok file.now) }
{
    let mut members = Map::new(alloc);
    put_part(&mut members, alloc, "answers", &file.answers)?;
    put_part(&mut members, alloc, "report", &file.report)?;
    put_part(&mut members, alloc, "text", &file.text)?;
    Ok(Value::Object(members))
}

/// Places of answers as JSON.
#[tactic(auto, using(crate::proofs::Places::places))]
fn order_value(alloc: Global, order: &Items<usize>, count: usize) -> Result<Value, AllocError>
    requires { AllByRecursion (λ place. place < count) order.now }
    ensures written { IfOk result (λ part. view part ≡ list_data small_data order.now) }
    ensures back { IfOk result (λ part. list (place count) (view part) ≡ Ok order.now) }
{
    let part = order.write(alloc)?;
    Ok(part)
}

/// Puts places of answers under their key.
fn put_order(
    members: &mut Map<String, Value>,
    alloc: Global,
    order: &Items<usize>,
    count: usize,
) -> Result<(), AllocError>
    requires { AllByRecursion (λ place. place < count) order.now }
    ensures written { OnOk result
        (members_view members.new.entries
        ≡ with_member (codes "order") (list_data small_data order.now)
        (members_view members.old.entries)) }
    ensures back { OnOk result
        (list (place count) (list_data small_data order.now) ≡ Ok order.now) }
{
    let part = order_value(alloc, order, count)?;
    put(members, alloc, "order", part)
}

/// A file of the second version as JSON.
fn second_value(alloc: Global, file: &Certificate) -> Result<Value, AllocError>
    requires version { file.now.version ≡ Second }
    requires writable { IsWritable file.now }
    ensures written { IfOk result (λ part. view part ≡ second_data file.now) }
    ensures back { IfOk result (λ part. certificate_in (view part) ≡ Ok file.now) }
{
    let mut members = Map::new(alloc);
    let version = 2usize;
    put_part(&mut members, alloc, "answers", &file.answers)?;
    put_order(&mut members, alloc, &file.order, file.answers.len())?;
    put_part(&mut members, alloc, "report", &file.report)?;
    put_part(&mut members, alloc, "text", &file.text)?;
    put_part(&mut members, alloc, "version", &version)?;
    Ok(Value::Object(members))
}

/// A file as JSON.
fn file_value(alloc: Global, file: &Certificate) -> Result<Value, AllocError>
    requires { IsWritable file.now }
    ensures written { IfOk result (λ part. view part ≡ certificate_data file.now) }
    ensures back { IfOk result (λ part. certificate_in (view part) ≡ Ok file.now) }
{
    match file.version {
        Version::First => first_value(alloc, file),
        Version::Second => second_value(alloc, file),
    }
}

/// The text of a certificate file, without spaces and line ends; it is read back as that file.
pub fn write_certificate(alloc: Global, file: &Certificate) -> Result<FileText, AllocError>
    requires { IsWritable file.now }
    ensures written { IfOk result (λ text. text ≡ compact_text (certificate_data file.now)) }
    ensures back { IfOk result (λ text. certificate_of text ≡ Ok file.now) }
{
    let value = file_value(alloc, file)?;
    let text = FileText::from_string(value.to_string(alloc)?);
    Ok(text)
}
