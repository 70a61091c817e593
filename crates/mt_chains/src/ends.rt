//! Where batches end.

ghost use Rattle.std.specs.Prelude.{◌≡◌};
ghost use Rattle.mt_log.specs.Contents.{end_of};

use mt_log::LogBatch;

/// The step at which the last of these batches ends, or the one at which those before them end.
pub(crate) fn end_after(mark: u64, batches: &[LogBatch]) -> u64
    ensures { result ≡ end_of mark batches.now }
{
    match batches.last() {
        Some(batch) => batch.to(),
        None => mark,
    }
}
