ghost use Rattle.std.specs.Prelude.{◌≡◌, ℕ, ◌+◌, ◌<◌, unwrap_or, slice_get};

/// Where the characters that stay of a text stood in the whole.
#[derive(Debug, Drop)]
pub struct Places {
    /// Where the text begins.
    pub at: usize,
    /// The text's length.
    pub end: usize,
    /// Where each character stood in the text.
    pub places: Vec<usize>,
    ghost fits: { (i : ℕ) → at + unwrap_or (slice_get places.items i) end < 18446744073709551616 },
}

impl Places {
    ghost use Rattle.conda_spec.specs.Good.{stood};

    /// Where such a character stood.
    pub fn of(&self, i: usize) -> usize
        ensures { result ≡ stood self.now i }
    {
        self.behind(0, i)
    }

    /// Where the character stood that is so many behind such a one; the end of the text behind the last.
    pub fn behind(&self, start: usize, more: usize) -> usize
        ensures { result ≡ stood self.now (start + more) }
    {
        let places = self.places.as_slice();
        let i = start.saturating_add(more);
        let count = self.places.len();
        if i < count {
            self.at + places[i]
        } else {
            self.at + self.end
        }
    }
}
