//! Domains, ranges and integers: a function or method for each line of the grammar. The domains take
//! the reader of the domains one construct deeper as a value.
ghost use Rattle.std.specs.Prelude.{◌<◌, ◌≡◌, codes, IfOk, OnOk};
ghost use Rattle.asm_grammar.specs.Parser.{enter};
ghost use Rattle.asm_syntax.specs.Marks.{is, symbol};
ghost use Rattle.asm_syntax.specs.Forms.{is_open};
ghost use Rattle.asm_syntax.specs.declared.tree.DomainTree.TheVariants as trees;
ghost use Rattle.asm_parse_cursor.specs.Reads.{Reads, Lends};
ghost use Rattle.asm_parse_theory.specs.Forms.{after_comma, many_listed, further_listed, listed};
ghost use Rattle.asm_parse_theory.specs.Domains as reading;
ghost use Rattle.asm_parse_theory.specs.Domains.{within, inside};
ghost use Rattle.asm_parse_domains.specs.Enclosed.{enclosed_factors};
ghost use Rattle.asm_parse_domains.specs.Nests.{NestsDomains};

use asm_parse_cursor::{GrammarRefusal, Tokens};
use asm_syntax::{Boxed, DomainTree, List, Span, Token};
use std::alloc::{AllocError, Global};

/// The first domain of a product, the one after it, and the others.
type Factors = (
    Boxed<DomainTree>,
    (Boxed<DomainTree>, List<Boxed<DomainTree>>),
);

/// A domain in which at most `depth` constructs are open at once: `Prod`, `Seq` and `Powerset` open
/// one each. On a refusal the tokens left begin with the one that is refused.
pub fn domain(
    alloc: Global,
    tokens: &mut Tokens<'_>,
    depth: usize,
) -> Result<Boxed<DomainTree>, GrammarRefusal>
    ensures { Reads (reading.domain depth tokens.old) result tokens.new }
{
    Domains {
        alloc,
        depth,
        domain,
    }
    .form(tokens)
}

/// Takes a `(`, which opens a construct, if one more may be open.
pub(crate) fn open_parenthesis<'a>(
    tokens: &mut Tokens<'a>,
    depth: usize,
) -> Result<&'a Token, GrammarRefusal>
    ensures reads { Lends (enter (is_open depth) (is (symbol (codes "("))) tokens.old) result tokens.new }
    ensures open { OnOk result (0 < depth) }
{
    tokens.enter_sign(depth > 0, "(")
}

/// The domains in which at most so many constructs are open at once.
#[derive(Clone, Copy)]
pub(crate) struct Domains<F> {
    alloc: Global,
    /// How many more constructs may be open.
    depth: usize,
    /// Reads a domain where at most so many constructs are open.
    domain: F,
}

impl<F: Fn(Global, &mut Tokens<'_>, usize) -> Result<Boxed<DomainTree>, GrammarRefusal>> Domains<
    F,
> {
    /// A domain inside a construct that was opened.
    fn inside(&self, tokens: &mut Tokens<'_>) -> Result<Boxed<DomainTree>, GrammarRefusal>
        requires nests { NestsDomains self.now.depth (F.pre self.now.domain) (F.post self.now.domain) }
        requires open { 0 < self.now.depth }
        ensures { Reads (inside self.now.depth tokens.old) result tokens.new }
    {
        (self.domain)(self.alloc, tokens, self.depth - 1)
    }

    /// domain
    #[tactic(auto, unfolding(asm_parse_theory::specs::Domains::domain_form))]
    fn form(&self, tokens: &mut Tokens<'_>) -> Result<Boxed<DomainTree>, GrammarRefusal>
        requires nests { NestsDomains self.now.depth (F.pre self.now.domain) (F.post self.now.domain) }
        ensures { Reads (within self.now.depth reading.domain_form tokens.old) result tokens.new }
    {
        if tokens.sees_word("Boolean") {
            self.boolean(tokens)
        } else if tokens.sees_word("Integer") {
            self.integer(tokens)
        } else if tokens.sees_word("Natural") {
            self.natural(tokens)
        } else if tokens.sees_word("String") {
            self.chars(tokens)
        } else if tokens.sees_id() {
            self.named(tokens)
        } else if tokens.sees_word("Prod") {
            self.product(tokens)
        } else if tokens.sees_word("Seq") {
            self.sequence(tokens)
        } else {
            self.powerset(tokens)
        }
    }

    /// "Boolean"
    fn boolean(&self, tokens: &mut Tokens<'_>) -> Result<Boxed<DomainTree>, GrammarRefusal>
        ensures { Reads (reading.boolean tokens.old) result tokens.new }
    {
        let before = tokens.rest();
        let _boolean = tokens.expect_word("Boolean")?;
        let span = tokens.span_since(before);
        Ok(Boxed::new(self.alloc, DomainTree::Truth(span))?)
    }

    /// "Integer"
    fn integer(&self, tokens: &mut Tokens<'_>) -> Result<Boxed<DomainTree>, GrammarRefusal>
        ensures { Reads (reading.integer tokens.old) result tokens.new }
    {
        let before = tokens.rest();
        let _integer = tokens.expect_word("Integer")?;
        let span = tokens.span_since(before);
        Ok(Boxed::new(self.alloc, DomainTree::Int(span))?)
    }

    /// "Natural"
    fn natural(&self, tokens: &mut Tokens<'_>) -> Result<Boxed<DomainTree>, GrammarRefusal>
        ensures { Reads (reading.natural tokens.old) result tokens.new }
    {
        let before = tokens.rest();
        let _natural = tokens.expect_word("Natural")?;
        let span = tokens.span_since(before);
        Ok(Boxed::new(self.alloc, DomainTree::Nat(span))?)
    }

    /// "String"
    fn chars(&self, tokens: &mut Tokens<'_>) -> Result<Boxed<DomainTree>, GrammarRefusal>
        ensures { Reads (reading.chars tokens.old) result tokens.new }
    {
        let before = tokens.rest();
        let _chars = tokens.expect_word("String")?;
        let span = tokens.span_since(before);
        Ok(Boxed::new(self.alloc, DomainTree::Chars(span))?)
    }

    /// ID
    fn named(&self, tokens: &mut Tokens<'_>) -> Result<Boxed<DomainTree>, GrammarRefusal>
        ensures { Reads (reading.named tokens.old) result tokens.new }
    {
        let before = tokens.rest();
        let name = tokens.expect_id()?;
        let span = tokens.span_since(before);
        let name = name.copy(self.alloc)?;
        Ok(Boxed::new(self.alloc, DomainTree::Named(name, span))?)
    }

    /// "Prod" "(" domain "," domain {"," domain} ")"
    #[tactic(auto, unfolding(asm_parse_theory::specs::Domains::product))]
    fn product(&self, tokens: &mut Tokens<'_>) -> Result<Boxed<DomainTree>, GrammarRefusal>
        requires nests { NestsDomains self.now.depth (F.pre self.now.domain) (F.post self.now.domain) }
        ensures { Reads (within self.now.depth reading.product tokens.old) result tokens.new }
    {
        let before = tokens.rest();
        let _prod = tokens.expect_word("Prod")?;
        let factors = self.enclosed_factors(tokens)?;
        let span = tokens.span_since(before);
        Ok(product_tree(self.alloc, span, factors)?)
    }

    /// "(" domain "," domain {"," domain} ")"
    fn enclosed_factors(&self, tokens: &mut Tokens<'_>) -> Result<Factors, GrammarRefusal>
        requires nests { NestsDomains self.now.depth (F.pre self.now.domain) (F.post self.now.domain) }
        ensures { Reads (enclosed_factors self.now.depth tokens.old) result tokens.new }
    {
        let _open = open_parenthesis(tokens, self.depth)?;
        let factors = self.factors(tokens)?;
        let _close = tokens.expect_sign(")")?;
        Ok(factors)
    }

    /// domain "," domain {"," domain}
    fn factors(&self, tokens: &mut Tokens<'_>) -> Result<Factors, GrammarRefusal>
        requires nests { NestsDomains self.now.depth (F.pre self.now.domain) (F.post self.now.domain) }
        requires open { 0 < self.now.depth }
        ensures { Reads (reading.factors (inside self.now.depth) tokens.old) result tokens.new }
    {
        let first = self.inside(tokens)?;
        let _comma = tokens.expect_sign(",")?;
        let more = self.factors_after(tokens)?;
        Ok((first, more))
    }

    /// domain {"," domain}
    fn factors_after(
        &self,
        tokens: &mut Tokens<'_>,
    ) -> Result<(Boxed<DomainTree>, List<Boxed<DomainTree>>), GrammarRefusal>
        requires nests { NestsDomains self.now.depth (F.pre self.now.domain) (F.post self.now.domain) }
        requires open { 0 < self.now.depth }
        ensures { Reads (listed (inside self.now.depth) tokens.old) result tokens.new }
    {
        let next = self.inside(tokens)?;
        let others = self.others(tokens)?;
        Ok((next, others))
    }

    /// "," domain
    fn next(&self, tokens: &mut Tokens<'_>) -> Result<Boxed<DomainTree>, GrammarRefusal>
        requires nests { NestsDomains self.now.depth (F.pre self.now.domain) (F.post self.now.domain) }
        requires open { 0 < self.now.depth }
        ensures { Reads (after_comma (inside self.now.depth) tokens.old) result tokens.new }
    {
        let _comma = tokens.expect_sign(",")?;
        self.inside(tokens)
    }

    /// {"," domain}
    fn others(&self, tokens: &mut Tokens<'_>) -> Result<List<Boxed<DomainTree>>, GrammarRefusal>
        requires nests { NestsDomains self.now.depth (F.pre self.now.domain) (F.post self.now.domain) }
        requires open { 0 < self.now.depth }
        ensures { Reads (many_listed (inside self.now.depth) tokens.old) result tokens.new }
    {
        if !tokens.sees_sign(",") {
            return Ok(List::new(self.alloc));
        }
        let first = self.next(tokens)?;
        self.more(tokens, List::only(self.alloc, first)?)
    }

    /// The domains found, and each that follows them.
    fn more(
        &self,
        tokens: &mut Tokens<'_>,
        mut found: List<Boxed<DomainTree>>,
    ) -> Result<List<Boxed<DomainTree>>, GrammarRefusal>
        requires nests { NestsDomains self.now.depth (F.pre self.now.domain) (F.post self.now.domain) }
        requires open { 0 < self.now.depth }
        ensures { Reads (further_listed (inside self.now.depth) found tokens.old) result tokens.new }
    {
        for _turn in 0..tokens.left() {
            if !tokens.sees_sign(",") {
                return Ok(found);
            }
            let domain = self.next(tokens)?;
            found.push(domain)?;
        }
        Ok(found)
    }

    /// "Seq" "(" domain ")"
    #[tactic(auto, unfolding(asm_parse_theory::specs::Domains::sequence))]
    fn sequence(&self, tokens: &mut Tokens<'_>) -> Result<Boxed<DomainTree>, GrammarRefusal>
        requires nests { NestsDomains self.now.depth (F.pre self.now.domain) (F.post self.now.domain) }
        ensures { Reads (within self.now.depth reading.sequence tokens.old) result tokens.new }
    {
        let before = tokens.rest();
        let _seq = tokens.expect_word("Seq")?;
        let _open = open_parenthesis(tokens, self.depth)?;
        let items = self.inside(tokens)?;
        let _close = tokens.expect_sign(")")?;
        let span = tokens.span_since(before);
        Ok(Boxed::new(self.alloc, DomainTree::Seq(items, span))?)
    }

    /// "Powerset" "(" domain ")"
    #[tactic(auto, unfolding(asm_parse_theory::specs::Domains::powerset))]
    fn powerset(&self, tokens: &mut Tokens<'_>) -> Result<Boxed<DomainTree>, GrammarRefusal>
        requires nests { NestsDomains self.now.depth (F.pre self.now.domain) (F.post self.now.domain) }
        ensures { Reads (within self.now.depth reading.powerset tokens.old) result tokens.new }
    {
        let before = tokens.rest();
        let _powerset = tokens.expect_word("Powerset")?;
        let _open = open_parenthesis(tokens, self.depth)?;
        let items = self.inside(tokens)?;
        let _close = tokens.expect_sign(")")?;
        let span = tokens.span_since(before);
        Ok(Boxed::new(self.alloc, DomainTree::Powerset(items, span))?)
    }
}

/// The product of these domains.
fn product_tree(
    alloc: Global,
    span: Span,
    factors: Factors,
) -> Result<Boxed<DomainTree>, AllocError>
    ensures { IfOk result (λ d. d ≡ trees.Prod factors.0 factors.1.0 factors.1.1 span) }
{
    let (first, (next, others)) = factors;
    Boxed::new(alloc, DomainTree::Prod(first, next, others, span))
}
