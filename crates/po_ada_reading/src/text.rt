// SPDX-License-Identifier: MIT
//! Reads a text, and makes the program of one of its protected units.

ghost use Rattle.std.specs.Prelude.{◌≡◌, ◌≤◌, vec_len, Ok, IfOk, IfErr, OnOk};

use po_ada_lint::hints;
use po_ada_names::Heading;
use po_ada_program::{Made, heading_of, object_of};
use po_ada_text::parse;
use po_ada_tree::tree::{Item, Name};
use po_ada_tree::{Fault, Faults, Names, Stop, Text};
use std::alloc::{AllocError, Global};

/// A text whose syntax was read, and one of its protected units.
#[derive(Drop)]
pub struct AdaText {
    alloc: Global,
    bytes: Vec<u8>,
    text: Text,
    wanted: Name,
    heading: Heading,
}

/// The fault of a text without a protected unit.
const NO_UNIT: &str = "the text has no protected type or object";

/// The message of a text that has several protected units, of which none is asked for.
fn several(alloc: Global, text: &Text) -> Result<String, AllocError> {
    let mut message = String::from_str(
        alloc,
        "the text has several protected units: begin the script with 'unit' and one of these names:",
    )?;
    for item in text.items.iter() {
        if let Item::Protected(unit) = item {
            message.push(' ')?;
            message.push_str(text.names.written(unit.name.number))?;
        }
    }
    Ok(message)
}

/// Why a text has not one protected unit that is asked for, but this many.
fn not_one(
    alloc: Global,
    text: &Text,
    wanted: Option<&str>,
    count: usize,
) -> Result<String, AllocError> {
    match wanted {
        None if count > 1 => several(alloc, text),
        None => String::from_str(alloc, NO_UNIT),
        Some(_) => String::from_str(
            alloc,
            "the text has no protected unit of the name that is asked for",
        ),
    }
}

/// The protected unit of a text that is asked for; if none is, the only one.
fn chosen(
    alloc: Global,
    text: &Text,
    wanted: Option<&str>,
    faults: &mut Faults,
) -> Result<Name, Stop> {
    let mut found: Option<Name> = None;
    let mut count = 0usize;
    for item in text.items.iter() {
        if let Item::Protected(unit) = item {
            if is_wanted(&text.names, unit.name, wanted) {
                count = count.saturating_add(1);
                found = Some(unit.name);
            }
        }
    }
    match found {
        Some(name) if count == 1 => Ok(name),
        _ => {
            faults.add(0, not_one(alloc, text, wanted, count)?)?;
            Err(Stop::Fault)
        }
    }
}

fn is_wanted(names: &Names, name: Name, wanted: Option<&str>) -> bool {
    match wanted {
        None => true,
        Some(text) => {
            let written = names.written(name.number).as_bytes();
            written.len() == text.len()
                && written
                    .iter()
                    .zip(text.as_bytes())
                    .all(|(a, b)| a.eq_ignore_ascii_case(b))
        }
    }
}

/// A text and its unit, or a stop.
fn read_text(
    alloc: Global,
    bytes: &[u8],
    wanted: Option<&str>,
    faults: &mut Faults,
) -> Result<AdaText, Stop> {
    let text = parse(alloc, bytes, faults)?;
    let wanted = chosen(alloc, &text, wanted, faults)?;
    let heading = heading_of(alloc, &text, bytes, wanted, faults)?;
    Ok(AdaText {
        alloc,
        bytes: bytes.to_vec(alloc)?,
        text,
        wanted,
        heading,
    })
}

/// What was made if nothing is wrong with a text; else its faults.
fn outcome<T: Drop>(
    made: Result<T, Stop>,
    faults: Faults,
) -> Result<Result<T, Vec<Fault>>, AllocError>
    ensures none { IfOk result (λ told. OnOk told (vec_len faults.items ≡ 0)) }
    ensures made { IfOk result (λ told. IfOk told (λ value. made ≡ Ok value)) }
    ensures few { IfOk result (λ told. IfErr told (λ list. vec_len list ≤ 20)) }
{
    match made {
        Ok(value) if faults.is_empty() => Ok(Ok(value)),
        Err(Stop::OutOfMemory) => Err(AllocError),
        _ => Ok(Err(faults.into_items())),
    }
}

/// Reads a text. If it has several protected units, one of them is asked for by its name, in any case of letters. Returns the
/// text with its unit, or what is wrong with it: at most 20 faults, in the order in which they were found.
pub fn read(
    alloc: Global,
    bytes: &[u8],
    wanted: Option<&str>,
) -> Result<Result<AdaText, Vec<Fault>>, AllocError> {
    let mut faults = Faults::new(alloc);
    let made = read_text(alloc, bytes, wanted, &mut faults);
    outcome(made, faults)
}

/// The names of a text's protected units, at least one, or a stop.
fn names_in(alloc: Global, bytes: &[u8], faults: &mut Faults) -> Result<Vec<String>, Stop>
    ensures { IfOk result (λ names. 1 ≤ vec_len names) }
{
    let text = parse(alloc, bytes, faults)?;
    let mut list = Vec::new(alloc);
    for item in text.items.iter() {
        if let Item::Protected(unit) = item {
            list.push(String::from_str(alloc, text.names.written(unit.name.number))?)?;
        }
    }
    if list.is_empty() {
        faults.add(0, String::from_str(alloc, NO_UNIT)?)?;
        return Err(Stop::Fault);
    }
    Ok(list)
}

/// The names of a text's protected units, in order, at least one; or what is wrong with its syntax: at most 20 faults.
pub fn unit_names(
    alloc: Global,
    bytes: &[u8],
) -> Result<Result<Vec<String>, Vec<Fault>>, AllocError>
    ensures names { IfOk result (λ told. IfOk told (λ names. 1 ≤ vec_len names)) }
    ensures faults { IfOk result (λ told. IfErr told (λ list. vec_len list ≤ 20)) }
{
    let mut faults = Faults::new(alloc);
    let names = names_in(alloc, bytes, &mut faults);
    outcome(names, faults)
}

impl AdaText {
    /// The unit's name and its discriminants.
    pub fn heading(&self) -> &Heading {
        &self.heading
    }

    /// What the language allows in the unit and is hardly meant: at most 20 hints, in the order of their places.
    pub fn hints(&self, alloc: Global) -> Result<Vec<Fault>, AllocError> {
        hints(alloc, &self.text, self.wanted)
    }

    /// The program of an object whose discriminants have these values, in order, and its names; or what is wrong with the text.
    pub fn object(
        &self,
        alloc: Global,
        values: &[i128],
    ) -> Result<Result<Made, Vec<Fault>>, AllocError> {
        let mut faults = Faults::new(alloc);
        let made = object_of(
            alloc,
            &self.text,
            self.bytes.as_slice(),
            self.wanted,
            values,
            &mut faults,
        );
        outcome(made, faults)
    }
}
