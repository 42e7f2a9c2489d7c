//! The metadata of a snapshot.
ghost use Rattle.std.specs.Prelude.{◌≡◌, IfOk};
ghost use Rattle.esr_meta.specs.Info.{info_from};
ghost use Rattle.esr_meta.specs.Global.{global_from};
ghost use Rattle.esr_meta.specs.Index.{index_meta_from};
ghost use Rattle.esr_json.specs.Steps.{Gives};
ghost use Rattle.esr_model.specs.Values.{ReadsBack};
ghost use Rattle.esr_formats.specs.Kinds.{IsRead};
ghost use Rattle.esr_formats.specs.Infos.{info_of_code, info_kind};
ghost use Rattle.esr_formats.specs.Globals.{global_of_code, global_kind};
ghost use Rattle.esr_formats.specs.IndexMetas.{index_meta_of, index_meta_kind};

use esr_json::ReadRefusal;
use esr_meta::{
    GlobalMeta, IndexMeta, SnapInfo, global_read, global_text, index_meta_read, index_meta_text,
    info_read, info_text,
};
use esr_seq::Bytes;
use std::alloc::{AllocError, Global};

/// The text of an info, which reads as it.
pub fn write_info(alloc: Global, info: &SnapInfo) -> Result<Bytes, AllocError>
    ensures text { IfOk result (λ b. b ≡ info_kind.text (info_of_code info.now)) }
    ensures reads { ReadsBack info_kind (info_of_code info.now) }
{
    let _ = &info.name;
    info_text(alloc, info)
}

/// The info that the bytes are the text of, else the first reason why they are none.
pub fn read_info(alloc: Global, bytes: &[u8]) -> Result<SnapInfo, ReadRefusal>
    ensures read { IsRead info_kind info_of_code bytes.now result }
    ensures reason { Gives (λ i. i) result (info_from bytes.now) }
{
    info_read(alloc, bytes)
}

/// The text of global metadata, which reads as they are.
pub fn write_global(alloc: Global, meta: &GlobalMeta) -> Result<Bytes, AllocError>
    ensures text { IfOk result (λ b. b ≡ global_kind.text (global_of_code meta.now)) }
    ensures reads { ReadsBack global_kind (global_of_code meta.now) }
{
    let _name = meta.name.as_str();
    let _uuid = meta.uuid.number;
    let _moment = meta.moment;
    global_text(alloc, meta)
}

/// The global metadata that the bytes are the text of, else the first reason why they are none.
pub fn read_global(alloc: Global, bytes: &[u8]) -> Result<GlobalMeta, ReadRefusal>
    ensures read { IsRead global_kind global_of_code bytes.now result }
    ensures reason { Gives (λ m. m) result (global_from bytes.now) }
{
    global_read(alloc, bytes)
}

/// The text of an index's metadata, which reads as they are.
pub fn write_index_meta(alloc: Global, meta: &IndexMeta) -> Result<Bytes, AllocError>
    ensures text { IfOk result (λ b. b ≡ index_meta_kind.text (index_meta_of meta.now)) }
    ensures reads { ReadsBack index_meta_kind (index_meta_of meta.now) }
{
    let _ = &meta.name;
    index_meta_text(alloc, meta)
}

/// The metadata of an index that the bytes are the text of, else the first reason why they are none.
pub fn read_index_meta(alloc: Global, bytes: &[u8]) -> Result<IndexMeta, ReadRefusal>
    ensures read { IsRead index_meta_kind index_meta_of bytes.now result }
    ensures reason { Gives (λ m. m) result (index_meta_from bytes.now) }
{
    index_meta_read(alloc, bytes)
}
