//! Members of a JSON object, and whole numbers within limits: the steps that every reader of this crate uses.

ghost use Rattle.std.specs.Prelude.{◌≡◌, ◌≤◌, IfOk, map};
ghost use Rattle.std.specs.Result.{result_map_both};
ghost use Rattle.serde_json.specs.View.{view};
ghost use Rattle.scenario_json.specs.Members.{array_in, list, member, member_number, object_in, whole_number, within_limits};

use crate::error::ScenarioErr;
use crate::name::Name;
use serde_json::Value;

/// Returns the value, which must be an object.
pub(crate) fn object_in(value: &Value, name: Name, at: u64) -> Result<&Value, ScenarioErr>
    ensures { result_map_both (λ v. view v.now) (λ e. e) result ≡ object_in name at (view value.now) }
{
    if !value.is_object() {
        return Err(ScenarioErr::WrongKind { name, at });
    }
    Ok(value)
}

/// Returns the object's member of this name.
pub(crate) fn member(object: &Value, name: Name, at: u64) -> Result<&Value, ScenarioErr>
    ensures { result_map_both (λ v. view v.now) (λ e. e) result ≡ member name at (view object.now) }
{
    let Some(found) = object.get(name.text()) else {
        return Err(ScenarioErr::MissingField { name, at });
    };
    Ok(found)
}

/// Returns the whole number that the value is, 0 to 2^64 - 1.
pub(crate) fn whole_number(value: &Value, name: Name, at: u64) -> Result<u64, ScenarioErr>
    ensures { result ≡ whole_number name at (view value.now) }
{
    let Some(number) = value.as_u64() else {
        return Err(ScenarioErr::WrongKind { name, at });
    };
    Ok(number)
}

/// Returns the number, which must be from `least` to `most`.
pub(crate) fn within(
    number: u64,
    name: Name,
    at: u64,
    least: u64,
    most: u64,
) -> Result<u64, ScenarioErr>
    ensures value { result ≡ within_limits name at least most number }
    ensures limits { IfOk result (λ n. (least ≤ n) × (n ≤ most)) }
{
    if number < least || most < number {
        return Err(ScenarioErr::OutOfLimit { name, at });
    }
    Ok(number)
}

/// Returns the object's member of this name, a whole number from `least` to `most`.
pub(crate) fn number(
    object: &Value,
    name: Name,
    at: u64,
    least: u64,
    most: u64,
) -> Result<u64, ScenarioErr>
    ensures value { result ≡ member_number name at least most (view object.now) }
    ensures limits { IfOk result (λ n. (least ≤ n) × (n ≤ most)) }
{
    let found = member(object, name, at)?;
    let number = whole_number(found, name, at)?;
    within(number, name, at, least, most)
}

/// Returns the items of the array that the value is.
pub(crate) fn array_in(value: &Value, name: Name) -> Result<&[Value], ScenarioErr>
    ensures { result_map_both (λ items. map view items.now) (λ e. e) result ≡ array_in name (view value.now) }
{
    let Some(items) = value.as_array() else {
        return Err(ScenarioErr::WrongKind { name, at: 0 });
    };
    Ok(items)
}

/// Returns the object's member of this name, a list of `least` to `most` items.
pub(crate) fn list(
    object: &Value,
    name: Name,
    least: u64,
    most: u64,
) -> Result<&[Value], ScenarioErr>
    ensures { result_map_both (λ items. map view items.now) (λ e. e) result ≡ list name least most (view object.now) }
{
    let found = member(object, name, 0)?;
    let items = array_in(found, name)?;
    within(items.len() as u64, name, 0, least, most)?;
    Ok(items)
}
