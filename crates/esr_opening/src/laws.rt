//! No kept image is damaged, and the opened worlds are in order.
ghost use Rattle.std.specs.Prelude.{Option};
ghost use Rattle.esr_model.specs.Values.{ReadsBack};
ghost use Rattle.esr_depot.specs.Image.{Image};
ghost use Rattle.esr_record.specs.Record.{Record};
ghost use Rattle.esr_root.specs.Root.{Root};
ghost use Rattle.esr_formats.specs.Clusters.{cluster_of, cluster_kind};
ghost use Rattle.esr_opening.specs.KeptImages.{KeptImagesOpen};
ghost use Rattle.esr_opening.specs.Opening.{world_in, IsInOrder};
ghost use Rattle.esr_opening.specs.Terms.{next_term, AreFew, IsFit};

/// No image that a run leaves, or a crash in it, is damaged: opening finds its record and its safe root, unless its term is the last.
pub fn kept_images_open()
    ensures { KeptImagesOpen }
{}

/// The world of a record and a root that can be opened is in order, whatever the container tells, where few deletes are open.
pub(crate) fn opened_worlds_are_in_order()
    ensures { (held : Option Image) (cluster : Record) (root : Root) → IsFit cluster root → ReadsBack cluster_kind (cluster_of (next_term cluster)) → AreFew cluster → IsInOrder (world_in held cluster root) }
{
    esr_core::opened_worlds_are_tracked();
    esr_core::opened_worlds_are_ranked();
}
