//! The cluster record.
ghost use Rattle.std.specs.Prelude.{◌≡◌, IfOk};
ghost use Rattle.esr_record.specs.Reading.{record_from};
ghost use Rattle.esr_json.specs.Steps.{Gives};
ghost use Rattle.esr_model.specs.Values.{ReadsBack};
ghost use Rattle.esr_formats.specs.Kinds.{IsRead};
ghost use Rattle.esr_formats.specs.Clusters.{cluster_of, cluster_kind};

use esr_json::ReadRefusal;
use esr_record::{ClusterRecord, record_read, record_text};
use esr_seq::Bytes;
use std::alloc::{AllocError, Global};

/// The text of a cluster record, which reads as it.
pub fn write_cluster(alloc: Global, cluster: &ClusterRecord) -> Result<Bytes, AllocError>
    ensures text { IfOk result (λ b. b ≡ cluster_kind.text (cluster_of cluster.now)) }
    ensures reads { ReadsBack cluster_kind (cluster_of cluster.now) }
{
    let _ops = cluster.ops.as_slice();
    record_text(alloc, cluster)
}

/// The cluster record that the bytes are the text of, else the first reason why they are none.
pub fn read_cluster(alloc: Global, bytes: &[u8]) -> Result<ClusterRecord, ReadRefusal>
    ensures read { IsRead cluster_kind cluster_of bytes.now result }
    ensures reason { Gives (λ r. r) result (record_from bytes.now) }
{
    record_read(alloc, bytes)
}
