//! What the parameter is, and what can be written.
ghost use Rattle.std.specs.Prelude.{◌≡◌, ◌<◌, ◌^◌, ℕ, Bool, List, length, map, None, Some, Option};
ghost use Rattle.esr_names.specs.NameRule.{index_name_fault};
ghost use Rattle.esr_hash.specs.Prints.{print_of};
ghost use Rattle.esr_record.specs.Op.{IsMaking};
ghost use Rattle.esr_model.specs.Names.{BlobName};
ghost use Rattle.esr_model.specs.Values.{Bytes, ReadsBack};
ghost use Rattle.esr_core.specs.Generations.{WritesBack};
ghost use Rattle.esr_formats.specs.Names.{name_kind};
ghost use Rattle.esr_formats.specs.Roots.{root_kind};
ghost use Rattle.esr_formats.specs.Infos.{info_kind};
ghost use Rattle.esr_formats.specs.Globals.{global_kind};
ghost use Rattle.esr_formats.specs.IndexMetas.{index_meta_kind};
ghost use Rattle.esr_formats.specs.Shards.{shard_snap_kind, shard_index_kind};
ghost use Rattle.esr_formats.specs.Clusters.{cluster_kind};
ghost use Rattle.esr_formats.specs.Refs.{ref_of_code, AreApart};
ghost use Rattle.esr_formats.specs.Formats.{formats};

use esr_names::IndexRef;
use esr_record::Making;

/// The fields of the parameter.
pub fn formats_are()
    ensures names { (known : Bytes → Bytes → ℕ → Bool) (told : Bytes → Bytes → ℕ → Option (List (Bytes × Bytes))) → (formats known told).names ≡ name_kind }
    ensures root { (known : Bytes → Bytes → ℕ → Bool) (told : Bytes → Bytes → ℕ → Option (List (Bytes × Bytes))) → (formats known told).root ≡ root_kind }
    ensures info { (known : Bytes → Bytes → ℕ → Bool) (told : Bytes → Bytes → ℕ → Option (List (Bytes × Bytes))) → (formats known told).info ≡ info_kind }
    ensures global { (known : Bytes → Bytes → ℕ → Bool) (told : Bytes → Bytes → ℕ → Option (List (Bytes × Bytes))) → (formats known told).global ≡ global_kind }
    ensures index_meta { (known : Bytes → Bytes → ℕ → Bool) (told : Bytes → Bytes → ℕ → Option (List (Bytes × Bytes))) → (formats known told).index_meta ≡ index_meta_kind }
    ensures shard_snap { (known : Bytes → Bytes → ℕ → Bool) (told : Bytes → Bytes → ℕ → Option (List (Bytes × Bytes))) → (formats known told).shard_snap ≡ shard_snap_kind }
    ensures shard_index { (known : Bytes → Bytes → ℕ → Bool) (told : Bytes → Bytes → ℕ → Option (List (Bytes × Bytes))) → (formats known told).shard_index ≡ shard_index_kind }
    ensures cluster { (known : Bytes → Bytes → ℕ → Bool) (told : Bytes → Bytes → ℕ → Option (List (Bytes × Bytes))) → (formats known told).cluster ≡ cluster_kind }
    ensures told { (known : Bytes → Bytes → ℕ → Bool) (told : Bytes → Bytes → ℕ → Option (List (Bytes × Bytes))) → (formats known told).told ≡ told }
    ensures known { (known : Bytes → Bytes → ℕ → Bool) (told : Bytes → Bytes → ℕ → Option (List (Bytes × Bytes))) → (formats known told).known ≡ known }
{}

/// Names with one text that reads back are one name.
pub fn names_differ()
    ensures { (a b : BlobName) → ReadsBack name_kind a → ReadsBack name_kind b → name_kind.text a ≡ name_kind.text b → a ≡ b }
{}

/// What reads as a name is its text.
pub fn name_texts_are_exact()
    ensures { (bytes : Bytes) (a : BlobName) → name_kind.read bytes ≡ Some a → name_kind.text a ≡ bytes }
{}

/// The print of bytes is their length and their digest.
pub fn digest_of_print()
    ensures { (known : Bytes → Bytes → ℕ → Bool) (told : Bytes → Bytes → ℕ → Option (List (Bytes × Bytes))) (bytes : Bytes) → print_of bytes ≡ record { len = length bytes; sha256 = (formats known told).digest bytes } }
{}

/// An index's name keeps the rules, and its id fits its type.
fn rule(index: &IndexRef)
    ensures name { index_name_fault index.now.name ≡ None }
    ensures id { index.now.id.number < 2 ^ 128 }
{
    let _name = index.name.as_str();
    let _id = index.id.number;
}

/// What a finalization of the op writes beside the root reads back, and the op can stand in a record, where
/// its indices are apart and each has 1 to 1,024 shards.
pub fn making_can_be_written(info: &Making)
    requires { AreApart (map ref_of_code info.now.indices) }
    ensures written { (known : Bytes → Bytes → ℕ → Bool) (told : Bytes → Bytes → ℕ → Option (List (Bytes × Bytes)))
        → WritesBack (formats known told) info.now.name info.now.uuid.number info.now.moment (map ref_of_code info.now.indices) }
    ensures making { IsMaking info.now }
{
    let _name = info.name.as_str();
    let _uuid = info.uuid.number;
    let _moment = info.moment;
    for index in info.indices.as_slice() {
        rule(index);
    }
}
