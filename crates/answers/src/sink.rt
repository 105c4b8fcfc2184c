// Where the bytes of a line go: first they are counted, then they are written.
ghost use Rattle.std.specs.Prelude.{◌≡◌, ℕ, List, [], ◌++◌, None, IsTrue, ◌↔◌};
ghost use Rattle.answers.specs.Sinks.{left_after, Continues, left_after_both, continues_both};
ghost use Rattle.std.proofs.Common.{rules, ap, sym, ◌∙◌};

pub(crate) trait Sink {
    // the sink before, the bytes that it takes, and the sink after
    ghost takes: { Self → List ℕ → Self → Type 0 };

    // the sink takes no more
    ghost full: { Self → Type 0 };

    // Takes a text.
    fn put(&mut self, text: &[u8])
        ensures { takes self.old text.now self.new };

    // Whether it takes no more.
    fn is_full(&self) -> bool
        ensures { IsTrue result ↔ full self.now };

    // where no text is taken, nothing changes
    ghost takes_none: { (s : Self) → takes s [] s };

    // two texts in a row are taken as one
    ghost takes_both: { (s t u : Self) (a b : List ℕ) → takes s a t → takes t b u → takes s (a ++ b) u };

    // no text changes a sink that is full
    ghost full_takes: { (s : Self) (a : List ℕ) → full s → takes s a s };
}

// The bytes that are left of a room, none once a text did not fit. Nothing is written.
#[derive(Drop)]
pub(crate) struct Left {
    pub(crate) bytes: Option<usize>,
}

impl Sink for Left {
    ghost takes = { λ s text t. t.bytes ≡ left_after text s.bytes };

    ghost full = { λ s. s.bytes ≡ None };

    ghost takes_none = { Prim.search rules };

    ghost takes_both = { λ s t u a b p q. q ∙ ap (left_after b) p ∙ left_after_both a b s.bytes };

    ghost full_takes = { λ s a f. f ∙ sym (ap (left_after a) f) };

    fn put(&mut self, text: &[u8]) {
        self.bytes = self.bytes.and_then(|left| left.checked_sub(text.len()));
    }

    fn is_full(&self) -> bool {
        self.bytes.is_none()
    }
}

// A room whose first `count` bytes are written. A text that does not fit is not written; none is met, as a line is measured
// first.
#[derive(Drop)]
pub(crate) struct Written<'a> {
    pub(crate) room: &'a mut [u8],
    pub(crate) count: usize,
}

impl Sink for Written<'_> {
    ghost takes = { λ s text t. (t.room.ghost_name ≡ s.room.ghost_name) × Continues text s.room.now t.room.now s.count t.count };

    ghost full = { λ _. ⊥ };

    ghost takes_none = { Prim.search rules };

    ghost takes_both = { λ s t u a b p q. (q.0 ∙ p.0, continues_both a b s.room.now t.room.now u.room.now s.count t.count u.count p.1 q.1) };

    ghost full_takes = { λ s a f. absurd f };

    fn put(&mut self, text: &[u8]) {
        let end = self.count.saturating_add(text.len());
        if end <= self.room.len() {
            self.room[self.count..end].copy_from_slice(text);
            self.count = end;
        }
    }

    fn is_full(&self) -> bool {
        false
    }
}
