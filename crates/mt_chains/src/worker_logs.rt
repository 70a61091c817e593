//! What was read of a worker's log files.

ghost use Rattle.std.specs.{Prelude.{◌≡◌, ◌≢◌, ◌+◌, ◌∷◌, [], ℕ, ◌↔◌, IsTrue}, Option.option_map};
ghost use Rattle.mt_log.specs.Contents.{contents_of};
ghost use Rattle.mt_chains.specs.{Files.{standing_of, numbered_log}, Testing.{batches_in, is_there}};

use mt_log::{Front, LogBatch};

/// The logs of a worker, as they were read: that of its plain file, of generation 0, and those of its two numbered
/// files. In a file that has no log, or was not read, there is none.
#[derive(Debug, Drop)]
pub struct WorkerLogs {
    pub plain: Option<Front>,
    pub numbered: [Option<Front>; 2],
}

impl WorkerLogs {
    /// Its log of a generation. If both numbered files have one, it is the first.
    pub fn log(&self, generation: u64) -> Option<&Front>
        ensures { option_map (λ front. contents_of front.now) result ≡ standing_of self.now generation }
    {
        if generation == 0 {
            return self.plain.as_ref();
        }
        log_ahead(&self.numbered, generation - 1, 1)
    }

    /// Its log of the generation after one.
    pub fn next_log(&self, generation: u64) -> Option<&Front>
        ensures { option_map (λ front. contents_of front.now) result ≡ standing_of self.now (generation + 1) }
    {
        log_ahead(&self.numbered, generation, 1)
    }

    /// Its log of the generation two after one.
    pub(crate) fn log_two_on(&self, generation: u64) -> Option<&Front>
        ensures { option_map (λ front. contents_of front.now) result ≡ standing_of self.now (generation + 2) }
    {
        log_ahead(&self.numbered, generation, 2)
    }

    /// The batches of its log of the generation after one, none if there is no such log.
    pub(crate) fn next_batches(&self, generation: u64) -> &[LogBatch]
        ensures { result.now ≡ batches_in (standing_of self.now (generation + 1)) }
    {
        match self.next_log(generation) {
            Some(next) => &next.batches,
            None => &[],
        }
    }

    /// Its logs of a generation and of the one after that. Others are let go.
    pub(crate) fn into_logs(self, generation: u64) -> (Option<Front>, Option<Front>)
        ensures first { option_map contents_of result.0 ≡ standing_of self generation }
        ensures next { option_map contents_of result.1 ≡ standing_of self (generation + 1) }
    {
        let WorkerLogs {
            plain,
            numbered: [mut one, mut other],
        } = self;
        let next = take_after(&mut one, &mut other, generation);
        if generation == 0 {
            return (plain, next);
        }
        (take_after(&mut one, &mut other, generation - 1), next)
    }
}

// The first log of two files that is of the generation after one is taken out.
fn take_after(one: &mut Option<Front>, other: &mut Option<Front>, generation: u64) -> Option<Front>
    ensures taken { option_map contents_of result ≡ numbered_log (generation + 1) (one.old ∷ other.old ∷ []) }
    ensures others { (h : ℕ) → h ≢ generation + 1 → numbered_log h (one.new ∷ other.new ∷ []) ≡ numbered_log h (one.old ∷ other.old ∷ []) }
{
    if has_after(one, generation) {
        one.take()
    } else if has_after(other, generation) {
        other.take()
    } else {
        None
    }
}

// Whether a file has a log of the generation after one.
fn has_after(file: &Option<Front>, generation: u64) -> bool
    ensures { result ≡ is_there (numbered_log (generation + 1) (file.now ∷ [])) }
{
    match file {
        Some(front) => follows(front, generation, 1),
        None => false,
    }
}

// The first log of some numbered files that is of the generation so many after one.
fn log_ahead(files: &[Option<Front>], generation: u64, by: u64) -> Option<&Front>
    ensures { option_map (λ front. contents_of front.now) result ≡ numbered_log (generation + by) files.now }
{
    for file in files {
        match file {
            Some(front) if follows(front, generation, by) => return Some(front),
            _ => {}
        }
    }
    None
}

// Whether a log is of the generation so many after one.
fn follows(front: &Front, generation: u64, by: u64) -> bool
    ensures { IsTrue result ↔ (front.now.generation ≡ generation + by) }
{
    front.generation >= generation && front.generation - generation == by
}
