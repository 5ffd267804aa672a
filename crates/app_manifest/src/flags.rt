//! Objects of truth values.

ghost use Rattle.std.specs.Prelude.{◌≡◌, option_map};
ghost use Rattle.serde_json.specs.View.{view};
ghost use Rattle.app_manifest.specs.Manifests.{two_truths, truth_or_missing, truths_or_missing};

use serde_json::Value;

// A missing truth value is false.
fn truth_or_missing(value: Option<&Value>) -> Option<bool>
    ensures { result ≡ truth_or_missing (option_map (λ v. view v.now) value.entry) }
{
    match value {
        None => Some(false),
        Some(value) => value.as_bool(),
    }
}

fn two_truths(first: &str, second: &str, object: &Value) -> Option<(bool, bool)>
    ensures { result ≡ two_truths first.now second.now (view object.now) }
{
    let one = truth_or_missing(object.get(first))?;
    let two = truth_or_missing(object.get(second))?;
    Some((one, two))
}

/// The truth values with these keys in the object; where there is none, both are false. `None` where
/// the value is no object, or one of the two no truth value.
pub fn truths_or_missing(first: &str, second: &str, object: Option<&Value>) -> Option<(bool, bool)>
    ensures { result ≡ truths_or_missing first.now second.now (option_map (λ v. view v.now) object.entry) }
{
    match object {
        None => Some((false, false)),
        Some(object) if object.is_object() => two_truths(first, second, object),
        Some(_) => None,
    }
}
