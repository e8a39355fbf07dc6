//! A book with how many parts of its jobs wait and how many run, as it told them before its last call.
ghost use Rattle.std.specs.Prelude.{◌≡◌};
ghost use Rattle.dd_book.specs.Counts.{counts_in};

use dd_book::{Book, Call, Limits, PartCounts};
use std::alloc::{AllocError, Global};

#[derive(Drop)]
pub struct Counted {
    book: Book,
    counts: PartCounts,
    ghost now: { counts ≡ counts_in book.jobs },
}

impl Counted {
    pub fn new(alloc: Global, limits: Limits) -> Counted {
        Counted {
            book: Book::new(alloc, limits),
            counts: PartCounts {
                waiting: 0,
                running: 0,
            },
        }
    }

    /// How many wait and how many run.
    pub fn counts(&self) -> (u64, u64) {
        (self.counts.waiting, self.counts.running)
    }

    /// The book after this call.
    pub fn after(self, call: &Call) -> Result<Counted, AllocError> {
        let Counted { mut book, counts } = self;
        let few = 1_000_000;
        if book.claims() > few || counts.waiting > few || counts.running > few {
            return Err(AllocError);
        }
        let counts = book.counts_after(counts, call);
        match book.apply(call.copy()) {
            Ok(_) => Ok(Counted { book, counts }),
            Err(_) => Err(AllocError),
        }
    }
}
