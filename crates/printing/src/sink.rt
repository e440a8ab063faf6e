//! What texts are put into, one after another, up to the first that does not fit.
ghost use Rattle.std.specs.Prelude.{ℕ, List, Result, ◌+◌, ◌^◌, ◌<◌, decimal};
ghost use Rattle.grammar.specs.Text.{binder_name, sort_text};
ghost use Rattle.printing.specs.declared.fault.PrintFault.{PrintFault};
ghost use Rattle.printing.specs.Parts.{PartsMakeTheWhole};
ghost use Rattle.printing.specs.Layout.{names_text, lead_text, piece_of};

use crate::fault::PrintFault;
use crate::lead::Lead;

pub(crate) trait Sink {
    // What putting a text answers, and what it makes of the sink.
    ghost put_gives: { Self → List ℕ → Result (Unit {0}) PrintFault → Self → Type 0 };

    // A text, if there is room for it.
    fn put(&mut self, text: &[u8]) -> Result<(), PrintFault>
        ensures { put_gives self.old text.now result self.new };

    // Texts that are put one after another are put as one.
    ghost joins: { PartsMakeTheWhole put_gives };

    // The number's digits.
    final fn number(&mut self, n: u64) -> Result<(), PrintFault>
    where
        Self: Sized,
        ensures { put_gives self.old (decimal n) result self.new }
    {
        let last = [b'0' + (n % 10) as u8];
        if n < 10 {
            return self.put(&last);
        }
        self.number(n / 10)?;
        self.put(&last)
    }

    // The name of the binder with `d` binders outside it.
    final fn binder(&mut self, d: u64) -> Result<(), PrintFault>
    where
        Self: Sized,
        ensures { put_gives self.old (binder_name d) result self.new }
    {
        self.put(b"_")?;
        self.number(d)
    }

    // The names of a form's binders, of which there are two at most.
    final fn names(&mut self, binders: u64, d: u64) -> Result<(), PrintFault>
    where
        Self: Sized,
        requires few { d + 2 < 2 ^ 64 }
        ensures { put_gives self.old (names_text binders d) result self.new }
    {
        match binders {
            0 => Ok(()),
            1 => self.binder(d),
            _ => {
                self.binder(d)?;
                self.put(b", ")?;
                self.binder(d + 1)
            }
        }
    }

    // What leads to a part.
    final fn lead(&mut self, lead: Lead<'_>, d: u64) -> Result<(), PrintFault>
    where
        Self: Sized,
        requires few { d + 2 < 2 ^ 64 }
        ensures { put_gives self.old (lead_text (piece_of lead.entry) d) result self.new }
    {
        self.put(lead.opening)?;
        self.names(lead.names, d)?;
        self.put(lead.bound)
    }

    // A sort: the first two have names.
    final fn sort(&mut self, s: u16) -> Result<(), PrintFault>
    where
        Self: Sized,
        ensures { put_gives self.old (sort_text s) result self.new }
    {
        match s {
            0 => self.put(b"Type"),
            1 => self.put(b"Kind"),
            _ => {
                self.put(b"Sort ")?;
                self.number(u64::from(s))
            }
        }
    }
}
