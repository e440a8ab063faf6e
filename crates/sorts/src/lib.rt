//! Sort systems: which sort lies above a sort, and which sort joins two.
#![tactic(auto)]

ghost use Rattle.std.specs.Prelude.{◌≡◌, ℕ, Option};
ghost use Rattle.rules.specs.Rules.{Question, above, join};
ghost use Rattle.sorts.specs.Systems.{lcplus, ladder, fence};

// Two questions, each answered by a sort or by none. Asking alters nothing.
pub trait SortSystem {
    // The system's meaning: the answer to each question.
    ghost answers: { Self → Question → Option ℕ };

    // The sort above `s`.
    fn above(&self, s: u16) -> Option<u16>
        ensures { result ≡ answers self.now (Question.above s) };

    // The sort that joins `s` and `t`.
    fn join(&self, s: u16, t: u16) -> Option<u16>
        ensures { result ≡ answers self.now (Question.join s t) };
}

// The two sorts of LC+, the first below the second.
#[derive(Clone, Copy, Drop)]
pub struct Lcplus;

impl SortSystem for Lcplus {
    ghost answers = { λ _. lcplus };

    fn above(&self, s: u16) -> Option<u16> {
        (s == 0).then_some(1)
    }

    fn join(&self, s: u16, t: u16) -> Option<u16> {
        (s <= 1 && t <= 1).then_some(t)
    }
}

// Each sort below the next, up to the last one.
#[derive(Clone, Copy, Drop)]
pub struct Ladder;

impl SortSystem for Ladder {
    ghost answers = { λ _. ladder };

    fn above(&self, s: u16) -> Option<u16> {
        s.checked_add(1)
    }

    fn join(&self, s: u16, t: u16) -> Option<u16> {
        Some(s.max(t))
    }
}

// A system that does not join one pair, and else answers as the system inside.
#[derive(Drop)]
pub struct Fence<S> {
    pub inner: S,
    pub first: u16,
    pub second: u16,
}

impl<S: SortSystem> SortSystem for Fence<S> {
    ghost answers = { λ f. fence f.first f.second (S.SortSystem.answers f.inner) };

    fn above(&self, s: u16) -> Option<u16> {
        self.inner.above(s)
    }

    fn join(&self, s: u16, t: u16) -> Option<u16> {
        if s == self.first && t == self.second {
            None
        } else {
            self.inner.join(s, t)
        }
    }
}
