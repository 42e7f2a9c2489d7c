//! Writing values.
ghost use Rattle.std.specs.Prelude.{◌≡◌, ◌≤◌, IfOk, Ok};
ghost use Rattle.serde_json.specs.Data.{Data, string, depth};
ghost use Rattle.serde_json.specs.Read.{max_depth};
ghost use Rattle.serde_json.specs.View.{view};
ghost use Rattle.serde_json.specs.Written.{compact_text};
ghost use Rattle.esr_json.specs.Access.{parsed};
ghost use Rattle.esr_json.specs.Plain.{IsPlain};
ghost use Rattle.esr_json.specs.Shallow.{IsShallow};

use serde_json::Value;
use std::alloc::{AllocError, Global};

/// The value of a text.
pub fn text_value(alloc: Global, text: &str) -> Result<Value, AllocError>
    ensures { IfOk result (λ v. view v ≡ string text.now) }
{
    Ok(Value::String(String::from_str(alloc, text)?))
}

/// The text of a value: compact, with the members in byte order of their names and no final newline.
/// `parse` reads it back. The value has no floats and nests at most 127 deep.
pub fn write(alloc: Global, value: &Value) -> Result<Vec<u8>, AllocError>
    requires { IsShallow max_depth (view value.now) }
    ensures text { IfOk result (λ t. t.items ≡ compact_text (view value.now)) }
    ensures reads { IfOk result (λ t. parsed t.items ≡ Ok (view value.now)) }
{
    let bytes = value.to_vec(alloc)?;
    Ok(bytes)
}

/// The text of a plain value is read back as that value.
pub fn texts_read_back()
    ensures { (d : Data) → IsPlain d → depth d ≤ max_depth → parsed (compact_text d) ≡ Ok d }
{}
