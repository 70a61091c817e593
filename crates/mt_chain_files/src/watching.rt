//! Who is told how far an opening of a store's files is.

/// Who is told how far an opening of all files is, which may last.
pub trait Watch {
    /// The numbered files of so many workers are open.
    fn opened_numbered(&mut self, workers: usize, of: usize);

    /// The plain files of so many workers are open.
    fn opened_plain(&mut self, workers: usize, of: usize);
}

/// Nobody.
#[derive(Clone, Copy, Debug, PartialEq, Eq)]
pub struct NoWatch;

impl Watch for NoWatch {
    fn opened_numbered(&mut self, _workers: usize, _of: usize) {}

    fn opened_plain(&mut self, _workers: usize, _of: usize) {}
}
