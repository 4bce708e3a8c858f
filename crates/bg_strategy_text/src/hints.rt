//! Hints about the text of a strategy, in addition to its fault: where it is not valid JSON, and which of its keys look
//! misspelt.

use crate::spelling::meant_key;
use serde_json::{Map, Value};
use std::io;
use std::io::Write;

/// Writes a hint for each key of `blueGreen` that looks misspelt.
pub fn hint_misspelt<W: Write>(document: &Value, errors: &mut W) -> io::Result<()> {
    let Some(keys) = blue_green(document) else {
        return Ok(());
    };
    for key in keys.keys() {
        if let Some(meant) = meant_key(key.as_str()) {
            writeln!(
                errors,
                "bg_switch: blueGreen has {key:?}, which is passed over: did you mean {meant:?}?"
            )?;
        }
    }
    Ok(())
}

/// The members of `blueGreen`, if there is one.
fn blue_green(document: &Value) -> Option<&Map<String, Value>> {
    let strategy = document.get("spec")?.get("strategy")?;
    strategy.get("blueGreen")?.as_object()
}

/// Writes where the text is not valid JSON. Writes nothing if an allocation failed.
pub fn hint_not_json<W: Write>(
    error: &serde_json::Error,
    text: &[u8],
    errors: &mut W,
) -> io::Result<()> {
    if error.is_memory() {
        return Ok(());
    }
    writeln!(errors, "bg_switch: the strategy is no JSON: {error}")?;
    if looks_like_yaml(text) {
        writeln!(
            errors,
            "bg_switch: it looks like YAML: `kubectl get rollout NAME -o json` writes JSON"
        )?;
    }
    Ok(())
}

/// Whether the first line that is not empty, a comment or `---` begins with a key of YAML.
fn looks_like_yaml(text: &[u8]) -> bool {
    for line in text.split(|byte| *byte == b'\n') {
        let line = line.trim_ascii();
        if line.is_empty() || line[0] == b'#' || line == b"---".as_slice() {
            continue;
        }
        return begins_with_key(line);
    }
    false
}

/// Whether a line begins with a word of letters and digits and a colon.
fn begins_with_key(line: &[u8]) -> bool {
    match line.iter().position(|byte| !byte.is_ascii_alphanumeric()) {
        Some(end) => 0 < end && line[end] == b':',
        None => false,
    }
}
