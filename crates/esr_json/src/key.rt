//! The names of the members.
ghost use Rattle.std.specs.Prelude.{◌≡◌};
ghost use Rattle.esr_json.specs.Access.{key_text};

/// The name of a member of a repository's JSON texts.
#[derive(Clone, Copy, Debug)]
pub enum Key {
    Bytes,
    Files,
    Id,
    Indices,
    Kind,
    Length,
    Moment,
    Name,
    Op,
    Ops,
    PartSize,
    Pending,
    PhysicalName,
    Safe,
    Sha256,
    ShardGenerations,
    Shards,
    Snapshots,
    Source,
    State,
    Term,
    Uuid,
    Uuids,
}

impl Key {
    /// The name as it stands in a text.
    pub fn text(self) -> &'static str
        ensures { result.now ≡ key_text self }
    {
        match self {
            Key::Bytes => "bytes",
            Key::Files => "files",
            Key::Id => "id",
            Key::Indices => "indices",
            Key::Kind => "kind",
            Key::Length => "length",
            Key::Moment => "moment",
            Key::Name => "name",
            Key::Op => "op",
            Key::Ops => "ops",
            Key::PartSize => "part_size",
            Key::Pending => "pending",
            Key::PhysicalName => "physical_name",
            Key::Safe => "safe",
            Key::Sha256 => "sha256",
            Key::ShardGenerations => "shard_generations",
            Key::Shards => "shards",
            Key::Snapshots => "snapshots",
            Key::Source => "source",
            Key::State => "state",
            Key::Term => "term",
            Key::Uuid => "uuid",
            Key::Uuids => "uuids",
        }
    }
}
