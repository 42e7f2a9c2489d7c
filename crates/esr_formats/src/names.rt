//! The names of blobs.
ghost use Rattle.std.specs.Prelude.{◌≡◌, ◌++◌, IfOk, IfSome, OnOk, option_map};
ghost use Rattle.esr_names.specs.Layout.{IsName};
ghost use Rattle.esr_model.specs.Values.{ReadsBack};
ghost use Rattle.esr_formats.specs.Names.{name_of, name_kind};

use esr_names::{BlobName, parse_name, print_name};
use esr_seq::{Bytes, Text};
use std::alloc::{AllocError, Global};

/// The text of a name whose numbers are those of the layout, which reads as it.
pub fn write_name(alloc: Global, name: &BlobName) -> Result<Text, AllocError>
    requires { IsName name.now }
    ensures text { IfOk result (λ t. t ≡ name_kind.text (name_of name.now)) }
    ensures reads { ReadsBack name_kind (name_of name.now) }
{
    let mut out = [0; 128];
    let len = print_name(name, &mut out);
    let Ok(text) = str::from_utf8(&out[..len]) else {
        unreachable!();
    };
    Text::from_str(alloc, text)
}

/// The name that has this text: its numbers are those of the layout.
pub fn read_name(bytes: &[u8]) -> Option<BlobName>
    ensures read { name_kind.read bytes.now ≡ option_map name_of result }
    ensures text { IfSome result (λ name. name_kind.text (name_of name) ≡ bytes.now) }
    ensures range { IfSome result IsName }
{
    parse_name(bytes)
}

/// Appends the text of a name, also of one whose numbers aren't those of the layout.
pub fn append_name(out: &mut Bytes, name: &BlobName) -> Result<(), AllocError>
    ensures { OnOk result (out.new ≡ out.old ++ name_kind.text (name_of name.now)) }
{
    let mut text = [0; 128];
    let len = print_name(name, &mut text);
    out.extend_from_slice(&text[..len])
}
