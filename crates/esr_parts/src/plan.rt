//! Where the parts of a file begin, and how long they are.
ghost use Rattle.std.specs.Prelude.{◌≡◌, ◌+◌, ◌*◌, ◌-◌, ◌<◌, ◌≤◌, ◌^◌, min};
ghost use Rattle.esr_model.specs.Parts.{part_count};

/// The place and the length, in bytes, of part `k` of a file of `len` bytes that is cut at `size`.
pub fn part_plan(len: u64, size: u64, k: u64) -> (u64, u64)
    requires size { (1 ≤ size) × (size ≤ 2 ^ 30) }
    requires number { k < part_count len size }
    ensures place { result.0 ≡ k * size }
    ensures length { result.1 ≡ min size (len - k * size) }
    ensures within { result.0 + result.1 ≤ len }
{
    let place = k * size;
    (place, size.min(len - place))
}
