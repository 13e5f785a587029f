//! Steps of formulas: the models of a board, joined.
ghost use Rattle.std.specs.Prelude.{◌≡◌, IfOk};
ghost use Rattle.asm_formula.specs.Formulas as formulas;
ghost use Rattle.asm_board.specs.Changes as spec;
ghost use Rattle.asm_board.specs.Coming.{Comes, IsRefused};
ghost use Rattle.asm_board.specs.Refusals as refusals;
ghost use Rattle.asm_board.specs.Shown as shown;
ghost use Rattle.asm_board.specs.Slots.{only};
ghost use Rattle.asm_core.specs.Language.{asmeta};

use crate::steps::stepped_from;
use asm_board::{Accepted, Board, Content, News, Refusal, Stop};
use asm_compose::{Formula, FormulaOutcome, FormulaRefusal, Leaf, Offer, run_formula};
use asm_formula::read_formula;
use asm_inputs::{all_given, inputs_of, stepping};
use asm_portable::Port;
use asm_showing::{offer_of, steps_shown};
use asm_value::{List, Shared, Text};
use std::alloc::{AllocError, Global};

/// The formula of a text, or the refusal of the text.
pub(crate) fn formula_in(alloc: Global, text: &Text) -> Result<Result<Formula, Refusal>, AllocError>
    ensures { IfOk result (λ tried. tried ≡ spec.formula_in text.now) }
{
    match read_formula(alloc, text.as_str()) {
        Ok(formula) => Ok(Ok(formula)),
        Err(FormulaRefusal::NoMemory) => Err(AllocError),
        Err(why) => Ok(Err(Refusal::bad_formula(alloc, &why)?)),
    }
}

/// The models that step together: of these names, with what the environment gives and the pick; the
/// new contents so far, and why the last step was refused, if it was.
#[derive(Drop)]
struct Stepping<'a> {
    board: &'a Board,
    names: &'a [Text],
    inputs: &'a Port,
    pick: Option<u64>,
    leaves: List<(Text, Shared<Content>)>,
    refusal: Option<Refusal>,
}

/// One step of a model with what it is offered.
fn leaf_stepped(
    alloc: Global,
    models: &Stepping<'_>,
    name: &Text,
    offered: &Offer,
) -> Result<Content, Stop>
    ensures { Comes (λ content. content) (spec.leaf_stepped asmeta
        (only models.now.board.now.slots models.now.names.now)
        models.now.inputs.now models.now.pick name.now offered.now) result }
{
    let Some(slot) = stepping(models.board, models.names, name.as_str()) else {
        let refusal = Refusal::unknown_model(alloc, name.as_str())?;
        return Err(Stop::Refused(refusal));
    };
    let content = slot.content.get();
    let offers = offered.as_slice();
    match inputs_of(alloc, name.as_str(), content, models.inputs, offers) {
        Ok(inputs) => stepped_from(alloc, name.as_str(), None, models.pick, content, &inputs),
        Err(stop) => Err(stop),
    }
}

/// A content under the name of its model.
fn leaf_made(
    alloc: Global,
    name: &Text,
    content: Content,
) -> Result<(Text, Shared<Content>), AllocError>
    ensures { IfOk result (λ leaf. leaf ≡ (name.now, content)) }
{
    let content = Shared::new(alloc, content)?;
    Ok((name.copy(alloc)?, content))
}

impl Leaf for Stepping<'_> {
    ghost use Rattle.asm_board.specs.declared.refusal.Refusal.{Refusal as Why};
    ghost use Rattle.asm_board.specs.Contents.{Contents};
    ghost use Rattle.asm_core.specs.Formulas.{begins_of, HasMade};

    ghost Refusal = { Why };

    ghost Left = { Contents };

    ghost begins = { λ s. begins_of s.board.now s.names.now s.inputs.now s.pick };

    ghost has_made = { λ s made. HasMade s.leaves s.refusal made };

    fn held(&self, alloc: Global, name: &Text) -> Result<Offer, AllocError> {
        match stepping(self.board, self.names, name.as_str()) {
            Some(slot) => offer_of(alloc, slot.content.get()),
            None => Ok(Offer::new(alloc)),
        }
    }

    fn step(
        &mut self,
        alloc: Global,
        name: &Text,
        offered: &Offer,
    ) -> Result<Option<Offer>, AllocError> {
        match leaf_stepped(alloc, self, name, offered) {
            Ok(content) => {
                let gives = offer_of(alloc, &content)?;
                self.leaves.push(leaf_made(alloc, name, content)?)?;
                self.refusal = None;
                Ok(Some(gives))
            }
            Err(Stop::Refused(refusal)) => {
                self.refusal = Some(refusal);
                Ok(None)
            }
            Err(Stop::NoMemory) => Err(AllocError),
        }
    }
}

/// The stop at a location that has two values.
fn clashed(alloc: Global, function: &Text, args: List<Port>, first: Port, second: Port) -> Stop
    ensures { IsRefused (refusals.join_clash
        (record { function = function.now; args = args; value = first })
        (record { function = function.now; args = args; value = second })) result }
{
    match Refusal::join_clash(alloc, function, args, first, second) {
        Ok(refusal) => Stop::Refused(refusal),
        Err(AllocError) => Stop::NoMemory,
    }
}

/// What the models of a formula leave, or the first refusal.
fn ran(
    alloc: Global,
    board: &Board,
    names: &[Text],
    inputs: &Port,
    pick: Option<u64>,
    formula: &Formula,
) -> Result<List<(Text, Shared<Content>)>, Stop>
    ensures { Comes (λ leaves. leaves) (spec.leaves_of
        (spec.ran asmeta (only board.now.slots names.now) inputs.now pick formula.now)) result }
{
    let mut models = Stepping {
        board,
        names,
        inputs,
        pick,
        leaves: List::new(alloc),
        refusal: None,
    };
    let outcome = run_formula(alloc, formula, &mut models)?;
    let Stepping {
        leaves,
        refusal,
        ..
    } = models;
    match outcome {
        FormulaOutcome::Done(_) => Ok(leaves),
        FormulaOutcome::Stopped(_) => Err(Stop::Refused(refusal.unwrap())),
        FormulaOutcome::JoinClash {
            function,
            args,
            first,
            second,
        } => Err(clashed(alloc, &function, args, first, second)),
    }
}

/// Each of these names is that of a model, or the refusal of the first that isn't.
fn all_found(alloc: Global, board: &Board, names: &[Text]) -> Result<(), Stop>
    ensures { Comes (λ found. found)
        (spec.all_found asmeta (only board.now.slots names.now) names.now) result }
{
    for name in names {
        match stepping(board, names, name.as_str()) {
            Some(_) => {}
            None => {
                let refusal = Refusal::unknown_model(alloc, name.as_str())?;
                return Err(Stop::Refused(refusal));
            }
        }
    }
    Ok(())
}

/// The news of models: their new contents.
fn news_of(alloc: Global, leaves: &[(Text, Shared<Content>)]) -> Result<List<News>, AllocError>
    ensures { IfOk result (λ news. news ≡ spec.news_of leaves.now) }
{
    let mut news = List::new(alloc);
    for leaf in leaves {
        let name = leaf.0.copy(alloc)?;
        let content = Some(leaf.1.share()?);
        news.push(News { name, content })?;
    }
    Ok(news)
}

/// What a step tells, with the models' new contents.
fn told(alloc: Global, leaves: &[(Text, Shared<Content>)]) -> Result<Accepted, AllocError>
    ensures { IfOk result (λ accepted. accepted ≡ record {
      ok = shown.steps_shown leaves.now;
      news = spec.news_of leaves.now;
    }) }
{
    let ok = steps_shown(alloc, leaves)?;
    Ok(Accepted {
        ok,
        news: news_of(alloc, leaves)?,
    })
}

/// A step of each model of a formula, which has these names, or of none.
pub(crate) fn step_models(
    alloc: Global,
    board: &Board,
    formula: &Formula,
    names: &[Text],
    inputs: &Port,
    pick: Option<u64>,
) -> Result<Accepted, Stop>
    requires { names.now ≡ formulas.names formula.now }
    ensures { Comes (λ accepted. accepted)
        (spec.step_formula asmeta board.now.slots inputs.now pick formula.now) result }
{
    all_found(alloc, board, names)?;
    all_given(alloc, board, names, inputs)?;
    let leaves = ran(alloc, board, names, inputs, pick, formula)?;
    Ok(told(alloc, leaves.as_slice())?)
}
