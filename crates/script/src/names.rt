//! The search by name, for any record that tells where its name stands in the script.
ghost use Rattle.std.specs.Prelude.{◌≡◌};
ghost use Rattle.std.specs.Str.{bytes_eq};
ghost use Rattle.script.specs.declared.statement.Span.{Span};
ghost use Rattle.script.specs.Names.{bytes_at, named, nearest};

use crate::statement::Span;

/// A record with a name: the bytes of the script at a place.
pub trait Named {
    ghost span: { Self → Span };

    fn name(&self) -> Span
        ensures { result ≡ span self.now };
}

impl Named for Span {
    ghost span = { λ x. x };

    fn name(&self) -> Span {
        *self
    }
}

impl Span {
    /// The bytes of the script that it covers, as many as there are.
    pub fn bytes<'a>(&self, script: &'a [u8]) -> &'a [u8]
        ensures { result.now ≡ bytes_at script.now self.now.at self.now.len }
    {
        let from = self.at.min(script.len());
        let to = from.saturating_add(self.len).min(script.len());
        &script[from..to]
    }
}

/// Whether two names are the same, byte for byte.
pub fn same_name(a: &[u8], b: &[u8]) -> bool
    ensures { result ≡ bytes_eq a.now b.now }
{
    a == b
}

// Whether a record has this name.
fn has_name<R: Named>(script: &[u8], x: &R, name: &[u8]) -> bool
    ensures { result ≡ named script.now name.now (R.span x.now).at (R.span x.now).len }
{
    same_name(x.name().bytes(script), name)
}

/// The nearest of the records with this name, which is the last of them.
pub fn find<R: Named>(script: &[u8], records: &[R], name: &[u8]) -> Option<usize>
    ensures { result ≡ nearest (λ x. named script.now name.now (R.span x).at (R.span x).len) records.now }
{
    records
        .iter()
        .rposition(|record| has_name(script, record, name))
}
