//! The count of reads that gave nothing.
ghost use Rattle.std.specs.Prelude.{◌≡◌, ◌<◌};
ghost use Rattle.edge_io.specs.Counts.{count_after};

/// The count after a read that gave so many bytes.
pub(crate) fn empties_after(empties: u64, given: usize) -> u64
    ensures nothing { given ≡ 0 → result ≡ count_after empties 1 }
    ensures some { 0 < given → result ≡ empties }
{
    if given == 0 {
        empties.saturating_add(1)
    } else {
        empties
    }
}
