//! The text of a term: measured first, then written.
ghost use Rattle.std.specs.Prelude.{ℕ, ◌+◌, ◌-◌, ◌*◌, ◌^◌, ◌<◌, ◌≡◌, min, [], length, slice_index_or};
ghost use Rattle.term.specs.State.{term};
ghost use Rattle.printing.specs.Output.{Printed, ReadsBack};
ghost use Rattle.printing.specs.Layout.{names_of, shown, piece_of, part_text};

use crate::fault::PrintFault;
use crate::forms;
use crate::forms::Arm;
use crate::lead::Lead;
use crate::measure::Measure;
use crate::page::Page;
use crate::sink::Sink;
use script::statement::Span;
use term::arena::Arena;
use term::node::Node;

// What is printed from: the cells, and the script with the places of the entries' names.
#[derive(Clone, Copy)]
struct Printer<'a> {
    arena: &'a Arena,
    names: &'a [Span],
    script: &'a [u8],
}

// How many binders stand outside that of the local `k`, under `d` binders.
fn outside(d: u64, k: u64) -> u64
    requires { k + 1 < 2 ^ 64 }
    ensures { result ≡ d - (k + 1) }
{
    d.saturating_sub(k + 1)
}

impl<'a> Printer<'a> {
    // The name of the entry, no bytes where there is none.
    fn name(&self, entry: usize) -> &'a [u8]
        ensures { result.now ≡ slice_index_or (names_of self.now.script.now self.now.names.now) entry [] }
    {
        self.names
            .get(entry)
            .map_or(b"", |span| span.bytes(self.script))
    }

    // What leads to the part at `id` of a tree under `d` binders, and the part.
    #[cycle(part_text)]
    fn part<S: Sink>(
        &self,
        lead: Lead<'_>,
        id: usize,
        d: u64,
        sink: &mut S,
    ) -> Result<(), PrintFault>
        requires few { lead.under + d + 2 * min id 1000000 < 2 ^ 32 }
        ensures { S.put_gives sink.old (part_text (piece_of lead.entry) (names_of self.now.script.now self.now.names.now) d (term self.now.arena.now id)) result sink.new }
    {
        sink.lead(lead, d)?;
        self.text(id, lead.under + d, sink)
    }

    // The tree at `id`, under `d` binders.
    #[cycle(part_text)]
    fn text<S: Sink>(&self, id: usize, d: u64, sink: &mut S) -> Result<(), PrintFault>
        requires few { d + 2 * min id 1000000 < 2 ^ 32 }
        ensures { S.put_gives sink.old (shown (names_of self.now.script.now self.now.names.now) d (term self.now.arena.now id)) result sink.new }
    {
        match self.arena.at(id) {
            Node::Sort(_, s) => sink.sort(s),
            Node::Local(_, k) => sink.binder(outside(d, k)),
            Node::Entry(_, j) => sink.put(self.name(j)),
            Node::One(_, form, a) => {
                self.part(forms::one_lead(form), a, d, sink)?;
                sink.put(b")")
            }
            Node::Two(_, form, a, b) => {
                self.part(forms::first_lead(form), a, d, sink)?;
                self.part(forms::second_lead(form), b, d, sink)?;
                sink.put(forms::two_closes(form))
            }
            Node::Match(_, e, l, r) => {
                self.part(forms::match_lead(), e, d, sink)?;
                sink.put(b" with")?;
                self.part(forms::arm_lead(Arm::Inl), l, d, sink)?;
                self.part(forms::arm_lead(Arm::Inr), r, d, sink)?;
                sink.put(b" end)")
            }
        }
    }
}

// Stays: the bytes, the script and the names are lent by the caller for one call, as is the way of `Read::read`.
/// Writes the text of the tree at `id` to the front of `out`, and tells its length. Where it does
/// not fit nothing is written. The entries are named by these bytes of the script. What is printed
/// reads back as the same tree, places aside, if its locals are bound and its entries have good names.
pub fn print<'a>(
    arena: &'a Arena,
    id: usize,
    names: &'a [Span],
    script: &'a [u8],
    out: &mut [u8],
) -> Result<usize, PrintFault>
    ensures printed { Printed (names_of script.now names.now) (term arena.now id) out.old out.new result }
    ensures back { ReadsBack (names_of script.now names.now) (term arena.now id) out.new result }
{
    let printer = Printer {
        arena,
        names,
        script,
    };
    let mut measure = Measure { room: out.len() };
    printer.text(id, 0, &mut measure)?;
    let mut page = Page { out, at: 0 };
    printer.text(id, 0, &mut page)?;
    Ok(page.at)
}
