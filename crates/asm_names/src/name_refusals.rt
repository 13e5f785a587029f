//! The first pass over a text: each name is declared once, and nothing is past its limit.
ghost use Rattle.std.specs.Prelude.{◌≡◌, ◌+◌, ◌≤◌, ◌<◌, ◌==◌, ◌∷◌, [], map, if◌then◌else◌};
ghost use Rattle.asm_program.specs.declared.type_refusal.TypeRefusal.TheVariants as refusals;
ghost use Rattle.asm_program.specs.Checks.{Checks};
ghost use Rattle.asm_program.specs.NamesPass as pass;
ghost use Rattle.asm_items.specs.Views.{item_of};

use crate::refusals::duplicate;
use asm_items::{Item, Items, NameSet, text_of};
use asm_program::{Limited, TypeRefusal};
use asm_syntax::Span;
use std::alloc::Global;
use std::marker::Model;

/// How many there are of a kind, at most as many as there may be.
fn one_more(kind: Limited, count: u16, most: u16, span: Span) -> Result<u16, TypeRefusal>
    requires few { count ≤ most }
    requires most { most < 1000 }
    ensures { Checks result
        (if count + 1 == most + 1 then refusals.Limit kind (count + 1) span ∷ [] else [])
        (λ n. (n ≡ count + 1) × (n ≤ most)) }
{
    if count == most {
        Err(TypeRefusal::Limit(kind, u128::from(count) + 1, span))
    } else {
        Ok(count + 1)
    }
}

/// A name that isn't among these yet, and is then.
#[tactic(auto, using(crate::proofs::SetSteps::set_steps))]
fn declare_in(names: &mut NameSet, alloc: Global, name: &str, span: Span) -> Result<(), TypeRefusal>
    ensures { Checks result (pass.used name.now span names.old)
        (λ _. names.new ≡ name.now ∷ names.old) }
{
    if !names.insert(name)? {
        return Err(duplicate(alloc, name, span));
    }
    Ok(())
}

/// The names so far, and how many of each kind there are.
#[derive(Drop)]
struct Seen {
    names: NameSet,
    invariant_names: NameSet,
    domains: u16,
    functions: u16,
    macros: u16,
    invariants: u16,
}

impl Model for Seen {
    ghost use Rattle.std.specs.Prelude.{◌≤◌};
    ghost use Rattle.asm_program.specs.NamesPass.{Seen as SeenNames};

    ghost Value = { SeenNames };

    ghost view = { λ s. record {
      names = s.names;
      invariant_names = s.invariant_names;
      domains = s.domains;
      functions = s.functions;
      macros = s.macros;
      invariants = s.invariants;
    } };

    ghost invariant = { λ s.
        (s.domains ≤ 256) × (s.functions ≤ 256) × (s.macros ≤ 256) × (s.invariants ≤ 64) };
}

impl Seen {
    fn new(alloc: Global) -> Seen
        ensures { result ≡ pass.nothing_seen }
    {
        Seen {
            names: NameSet::new(alloc),
            invariant_names: NameSet::new(alloc),
            domains: 0,
            functions: 0,
            macros: 0,
            invariants: 0,
        }
    }

    /// One more of its kind.
    fn count(&mut self, kind: Limited, span: Span) -> Result<(), TypeRefusal>
        ensures { Checks result (pass.counted kind (pass.number_of kind self.old) span)
            (λ _. self.new ≡ pass.with_one kind self.old) }
    {
        match kind {
            Limited::Domains => self.domains = one_more(kind, self.domains, 256, span)?,
            Limited::Functions => self.functions = one_more(kind, self.functions, 256, span)?,
            Limited::Macros => self.macros = one_more(kind, self.macros, 256, span)?,
            Limited::Invariants => self.invariants = one_more(kind, self.invariants, 64, span)?,
            Limited::Parts
            | Limited::Members
            | Limited::Chars
            | Limited::Product
            | Limited::Powerset
            | Limited::Depth => {}
        }
        Ok(())
    }

    /// A name of the one name space.
    fn declare(&mut self, alloc: Global, name: &str, span: Span) -> Result<(), TypeRefusal>
        ensures { Checks result (pass.used name.now span self.old.names)
            (λ _. self.new ≡ record self.old { names = name.now ∷ self.old.names }) }
    {
        declare_in(&mut self.names, alloc, name, span)?;
        Ok(())
    }

    /// A name of an invariant.
    fn declare_invariant(
        &mut self,
        alloc: Global,
        name: &str,
        span: Span,
    ) -> Result<(), TypeRefusal>
        ensures { Checks result (pass.used name.now span self.old.invariant_names)
            (λ _. self.new ≡
            record self.old { invariant_names = name.now ∷ self.old.invariant_names }) }
    {
        declare_in(&mut self.invariant_names, alloc, name, span)?;
        Ok(())
    }

    /// An item after those before it.
    fn look(&mut self, alloc: Global, item: &Item) -> Result<(), TypeRefusal>
        ensures { Checks result (pass.refused_at self.old (item_of item.now))
            (λ _. self.new ≡ pass.seen_after self.old (item_of item.now)) }
    {
        match item {
            Item::Counts(kind, span) => self.count(*kind, *span),
            Item::Declares(name) => self.declare(alloc, text_of(name), name.span),
            Item::DeclaresInvariant(name, span) => {
                self.declare_invariant(alloc, name.as_str(), *span)
            }
            Item::Exceeds(kind, number, span) => { Err(TypeRefusal::Limit(*kind, *number, *span)) }
            Item::Repeats(name) => Err(duplicate(alloc, text_of(name), name.span)),
            Item::NamesDomain(_)
            | Item::NeedsIntegers(_, _)
            | Item::GivesInterval(_, _, _)
            | Item::GivesIntegers(_, _, _)
            | Item::NamesFunction(_)
            | Item::NamesMacro(_) => Ok(()),
        }
    }
}

#[tactic(auto, using(crate::proofs::Passes::names_steps))]
fn all_checked(alloc: Global, items: &[Item]) -> Result<(), TypeRefusal>
    ensures { Checks result (pass.names_refused (map item_of items.now)) (λ _. Unit {0}) }
{
    let mut seen = Seen::new(alloc);
    for item in items {
        match seen.look(alloc, item) {
            Ok(()) => {}
            Err(refusal) => return Err(refusal),
        }
    }
    Ok(())
}

/// The first refusal of the first pass.
pub(crate) fn names_checked(alloc: Global, items: &Items) -> Result<(), TypeRefusal>
    ensures { Checks result (pass.names_refused items.now) (λ _. Unit {0}) }
{
    all_checked(alloc, items.as_slice())
}
