//! A record of a list: the names of a scenario file and of the file for its result.

ghost use Rattle.std.specs.Prelude.{◌≡◌, IfOk, IsFalse, IsTrue, MatchOption, map};
ghost use Rattle.std.specs.Option.{option_map};
ghost use Rattle.std.specs.Str.{is_utf8};
ghost use Rattle.batch_list.specs.ListOf.{ListedNames, listed_of};

use std::alloc::{AllocError as NoMemory, Global};
use std::marker::Model;
use std::str;

/// A record of a list: the name of a scenario file, and the name of the file for its result.
#[derive(Drop)]
pub struct BatchLine {
    scenario: String,
    result: String,
}

impl Model for BatchLine {
    ghost use Rattle.std.specs.Prelude.{string_bytes};
    ghost use Rattle.batch_list.specs.ListOf.{ListedNames};

    ghost Value = { ListedNames };

    ghost view = { λ l. record { scenario = string_bytes l.scenario; result = string_bytes l.result } };
}

impl BatchLine {
    /// Returns the record of these names.
    ///
    /// # Errors
    /// Fails only if memory runs out.
    pub(crate) fn new(alloc: Global, scenario: &str, output: &str) -> Result<BatchLine, NoMemory>
        ensures { IfOk result (λ l. l ≡ record { scenario = scenario.now; result = output.now }) }
    {
        Ok(BatchLine {
            scenario: String::from_str(alloc, scenario)?,
            result: String::from_str(alloc, output)?,
        })
    }

    /// Returns the name of the scenario file.
    pub fn scenario(&self) -> &str
        ensures { result.now ≡ self.now.scenario }
    {
        self.scenario.as_str()
    }

    /// Returns the name of the file for the result.
    pub fn result(&self) -> &str
        ensures { result.now ≡ self.now.result }
    {
        self.result.as_str()
    }
}

/// Returns the bytes as a text, if they are UTF-8.
fn text(bytes: &[u8]) -> Option<&str>
    ensures { MatchOption result (IsFalse (is_utf8 bytes.now)) (λ text. (text.now ≡ bytes.now) × IsTrue (is_utf8 bytes.now)) }
{
    match str::from_utf8(bytes) {
        Ok(text) => Some(text),
        Err(_) => None,
    }
}

/// Returns the names in the fields of a record: of a scenario file, and of the file for its result. Returns `None` if the record does
/// not have two fields, or a field isn't UTF-8.
pub(crate) fn names_of(fields: &[Vec<u8>]) -> Option<(&str, &str)>
    ensures { option_map (λ names. record { scenario = names.0.now; result = names.1.now }) result ≡ listed_of (map (λ f. f.items) fields.now) }
{
    if fields.len() != 2 {
        return None;
    }
    let Some(scenario) = text(&fields[0]) else {
        return None;
    };
    let Some(output) = text(&fields[1]) else {
        return None;
    };
    Some((scenario, output))
}
