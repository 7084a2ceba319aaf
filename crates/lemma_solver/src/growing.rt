//! A sink in memory that grows with the bytes taken.
ghost use Rattle.std.specs.Prelude.{◌≡◌, ◌<◌, ◌≤◌, [], length, IfOk, Some};
ghost use Rattle.std.specs.Io.{WritesAtMost};
ghost use Rattle.std.specs.Io.KnownBytes.{WriteAppends};
ghost use Rattle.qc_io.specs.Counts.{HasCause};

use qc_io::{Failed, Sink};
use std::alloc::{AllocError, Global};

/// The most bytes of a list's text.
pub(crate) const TEXT_LIMIT: usize = 1_073_741_824;

/// The bytes taken. A call fails where they would be more than the limit, and where memory is refused.
#[derive(Drop)]
pub(crate) struct GrowingSink {
    bytes: Vec<u8>,
    // Memory was refused.
    refused: bool,
    faults: u64,
    ghost within: { length bytes.items ≤ 1073741824 },
}

impl GrowingSink {
    /// Nothing was taken yet. It takes no memory.
    pub(crate) fn new(alloc: Global) -> GrowingSink {
        GrowingSink {
            bytes: Vec::new(alloc),
            refused: false,
            faults: 0,
        }
    }

    /// Whether memory was refused.
    pub(crate) fn is_refused(&self) -> bool {
        self.refused
    }

    /// The bytes taken.
    pub(crate) fn into_bytes(self) -> Vec<u8>
        ensures { length result.items ≤ 1073741824 }
    {
        self.bytes
    }
}

impl Sink for GrowingSink {
    ghost written = { λ sink. Some sink.bytes.items };

    ghost faults = { λ sink. sink.faults };

    fn write(&mut self, piece: &[u8]) -> Result<usize, Failed>
        ensures bound { WritesAtMost result piece.now }
        ensures some { IfOk result (λ n. 0 < length piece.now → 0 < n) }
        ensures bytes { WriteAppends (Some self.old.bytes.items) (Some self.new.bytes.items) result piece.now }
        ensures cause { HasCause self.old.faults self.new.faults result }
    {
        if piece.len() > TEXT_LIMIT - self.bytes.len() {
            self.faults = self.faults.saturating_add(1);
            return Err(Failed);
        }
        match self.bytes.extend_from_slice(piece) {
            Ok(()) => Ok(piece.len()),
            Err(AllocError) => {
                self.refused = true;
                self.faults = self.faults.saturating_add(1);
                Err(Failed)
            }
        }
    }
}
