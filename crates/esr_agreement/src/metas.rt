//! The metadata of a snapshot beside its info.
ghost use Rattle.std.specs.Prelude.{◌≡◌, ◌↔◌, IsTrue};
ghost use Rattle.esr_model.specs.Image.{global_of};
ghost use Rattle.esr_formats.specs.Infos.{info_of_code};
ghost use Rattle.esr_formats.specs.Globals.{global_of_code};
ghost use Rattle.esr_formats.specs.IndexMetas.{index_meta_of};
ghost use Rattle.esr_formats.specs.Refs.{ref_of_code};

use esr_meta::{GlobalMeta, IndexMeta, SnapInfo};
use esr_names::{Id, IndexRef};

/// The global metadata have the name, the uuid and the moment of the info.
pub fn is_global_of(meta: &GlobalMeta, info: &SnapInfo) -> bool
    ensures { IsTrue result ↔ (global_of_code meta.now ≡ global_of (info_of_code info.now)) }
{
    meta.name.as_str() == info.name.as_str()
        && meta.uuid.number == info.uuid.number
        && meta.moment == info.moment
}

/// The metadata are those of the index in the snapshot.
pub fn is_meta_of(meta: &IndexMeta, uuid: Id, index: &IndexRef) -> bool
    ensures { IsTrue result ↔ (index_meta_of meta.now ≡ record { index = ref_of_code index.now; uuid = uuid.number }) }
{
    meta.id.number == index.id.number
        && meta.name.as_str() == index.name.as_str()
        && meta.shards == index.shards
        && meta.uuid.number == uuid.number
}
