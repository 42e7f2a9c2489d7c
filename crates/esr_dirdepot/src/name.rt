//! Names of blobs that stay inside the folder of blobs.
ghost use Rattle.std.specs.Prelude.{◌≡◌, ◌≤◌, IsTrue, length};
ghost use Rattle.esr_dirdepot.specs.Names.{names_entry, names_entries, has_no_nul, leads_inside};

/// The longest name of a blob, in bytes.
pub const LONGEST_NAME: usize = 128;

/// Tells whether a blob of that name has its place below the folder of blobs, and nowhere else.
pub fn is_inside(name: &str) -> bool
    ensures inside { result ≡ leads_inside name.now }
    ensures short { IsTrue result → length name.now ≤ 128 }
{
    name.len() <= LONGEST_NAME && is_uncut(name) && is_way(name)
}

/// Tells whether no byte of the name would cut it off.
fn is_uncut(name: &str) -> bool
    ensures { result ≡ has_no_nul name.now }
{
    name.as_bytes().iter().all(|byte| *byte != 0)
}

/// Tells whether each part of the name is that of a folder's entry.
fn is_way(name: &str) -> bool
    ensures { result ≡ names_entries name.now }
{
    name.split('/').all(|part| is_entry(part))
}

/// Tells whether a part of a name is that of a folder's entry.
fn is_entry(part: &str) -> bool
    ensures { result ≡ names_entry part.now }
{
    part != "" && part != "." && part != ".."
}
