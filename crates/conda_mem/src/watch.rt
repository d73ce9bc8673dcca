use conda_base::Text;
use std::sync::atomic::{AtomicU64, Ordering};

/// Counts the reads of one path, over all handles on channels.
#[derive(Drop)]
pub struct Watch {
    path: Text,
    reads: AtomicU64,
}

impl Watch {
    /// No read of this path yet. It takes no memory.
    pub fn new(path: Text) -> Watch {
        Watch {
            path,
            reads: AtomicU64::new(0),
        }
    }

    /// Counts a read, where it is one of this path.
    pub fn note(&self, path: &str) {
        if self.path.as_str() == path {
            self.reads.fetch_add(1, Ordering::SeqCst);
        }
    }

    /// How many reads there were.
    pub fn reads(&self) -> u64 {
        self.reads.load(Ordering::SeqCst)
    }
}
