//! Opening and closing binders, and the nearest of a name.
ghost use Rattle.std.specs.Prelude.{◌≡◌, ◌+◌, ◌<◌, ◌≤◌, [], ◌∷◌, ◌++◌, take, IfSome, IfOk, vec_len};
ghost use Rattle.grammar.specs.Grammar.{find, find_entry};
ghost use Rattle.syntax.specs.Scopes.{opened, entry_names};

use super::Scope;
use script::names;
use script::statement::Span;
use std::alloc::{AllocError, Global};

impl Scope {
    /// No binder open, with room for all that a statement can open.
    pub fn new(heap: Global) -> Result<Scope, AllocError>
        ensures { IfOk result (λ s. s.names.items ≡ []) }
    {
        let names = Vec::with_capacity(heap, 4000)?;
        Ok(Scope { names })
    }

    // Closes all but the first `was` binders.
    pub(crate) fn close(&mut self, was: usize)
        ensures { self.new.names.items ≡ take was self.old.names.items }
    {
        self.names.truncate(was);
    }

    /// How many binders are open.
    pub fn count(&self) -> usize
        ensures { result ≡ vec_len self.now.names }
    {
        self.names.len()
    }

    // One more binder, the nearest; there is room for it.
    pub(crate) fn open(&mut self, name: Span)
        requires { vec_len self.old.names < 4000 }
        ensures names { self.new.names.items ≡ self.old.names.items ++ name ∷ [] }
        ensures len { vec_len self.new.names ≡ vec_len self.old.names + 1 }
    {
        self.names.push_reserved(name);
    }

    /// How many binders stand between here and the nearest of a name.
    pub fn nearest(&self, script: &[u8], name: &[u8]) -> Option<usize>
        ensures value { result ≡ find name.now (opened script.now self.now.names.items) }
        ensures bound { IfSome result (λ k. k < 4000) }
    {
        let i = names::find(script, self.names.as_slice(), name)?;
        Some(self.names.len() - i - 1)
    }
}

/// The entry of a name, among entries in the order in which they were entered.
pub fn entry_named(script: &[u8], entries: &[Span], name: &[u8]) -> Option<usize>
    ensures { result ≡ find_entry name.now (entry_names script.now entries.now) }
{
    names::find(script, entries, name)
}
