//! The cluster record: the text in which a cluster keeps its generations, its term and its open ops.
#![tactic(auto)]

mod op;
mod ops;
mod reading;
mod record;
mod steps;
mod writing;

pub use op::{Making, OpWork, RecordOp};
pub use ops::RecordOps;
pub use reading::record_read;
pub use record::ClusterRecord;
pub use steps::RecordRefusal;
pub use writing::record_text;
