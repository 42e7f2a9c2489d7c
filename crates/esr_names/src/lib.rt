//! Ids, the names of snapshots and indices, and the names of a repository's blobs; the members of JSON values that are such.
#![tactic(auto)]

mod blob;
mod ids;
mod index_ref;
mod indices;
mod name;
mod parse;

pub use blob::{BlobName, ShardId, is_name, print_name};
pub use ids::{ID_TEXT_LEN, Id, id_read, id_reads_back, id_text, worked_texts};
pub use index_ref::{Ids, IndexNames, IndexRef, IndexRefs, SnapNames};
pub use indices::{id_at, id_value, index_name_at, indices_at, indices_value, snap_name_at};
pub use name::{BadName, IndexName, NameRefusal, Rule, SnapName};
pub use parse::{one_text, parse_name};
