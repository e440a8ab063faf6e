//! The binders that are open, the nearest last. There is room for as many as a statement has tokens.
ghost use Rattle.std.specs.Prelude.{◌≡◌, ◌≤◌, take, vec_len, vec_capacity};

use script::statement::Span;

pub mod binders;

/// The names of the open binders.
#[derive(Drop)]
pub struct Scope {
    names: Vec<Span>,
    ghost few: { vec_len names ≤ 4000 },
    ghost room: { 4000 ≤ vec_capacity names },
}

/// A binder that is open while this lives. Its drop closes it, and all within it.
pub struct Open<'a> {
    pub scope: &'a mut Scope,
    pub was: usize,
}

impl Drop for Open<'_> {
    fn drop(self)
        ensures { self.exit.0.now.names.items ≡ take self.entry.was self.entry.scope.now.names.items }
    {
        let Open { scope, was } = self;
        scope.close(was);
    }
}
