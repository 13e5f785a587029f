//! Refusals.
ghost use Rattle.std.specs.Prelude.{◌≡◌, [], ◌∷◌, ◌++◌, IfOk, OnOk};
ghost use Rattle.asm_portable.specs.Ports.{text, number, list, field};
ghost use Rattle.asm_board.specs.Refusals as spec;
ghost use Rattle.asm_board.specs.Replies.{refusal_fields};

use asm_formula::FormulaRefusal;
use asm_portable::{Field, Port, push_field};
use asm_program::BadText;
use asm_value::{List, Text};
use std::alloc::{AllocError, Global};

/// Why a line or a call is refused, without where and by what.
#[derive(Clone, Copy, Debug, Drop)]
pub enum RefusalName {
    /// The line asks for something that isn't built.
    Unbuilt,
    /// The line has too many bytes.
    LineTooLong,
    /// The line isn't JSON.
    BadJson,
    /// The line is JSON, and no request.
    BadRequest,
    /// A read is to be answered after more entries than there are.
    Ahead,
    /// The name is no identifier of 1 to 64 bytes.
    BadName,
    /// The model exists.
    NameTaken,
    /// As many models exist as may.
    ModelsFull,
    /// The text has no program.
    BadText,
    /// No such model exists.
    UnknownModel,
    /// The initial state has a fault.
    InitFault,
    /// A state weighs more than 65,536.
    StateFull,
    /// A state breaks an invariant of its model.
    Broken,
    /// The text is no formula.
    BadFormula,
    /// What is given for a function doesn't fit.
    BadInput,
    /// What other models offer for a function doesn't fit.
    WireUnfit,
    /// A step has a fault.
    Fault,
    /// A step's update set gives one location two values.
    Clash,
    /// Two models of a formula give one location two values.
    JoinClash,
    /// The model has an invariant of this name.
    InvTaken,
    /// The model has no invariant of this name.
    UnknownInv,
    /// The model has as many invariants as may be.
    InvsFull,
    /// The version isn't among the earlier ones that are kept.
    NotInTrail,
    /// The journal has no room for the entry.
    JournalFull,
}

impl RefusalName {
    /// It in a reply.
    pub fn text(self) -> &'static str
        ensures { result.now ≡ spec.name_text self }
    {
        match self {
            RefusalName::Unbuilt => "Unbuilt",
            RefusalName::LineTooLong => "LineTooLong",
            RefusalName::BadJson => "BadJson",
            RefusalName::BadRequest => "BadRequest",
            RefusalName::Ahead => "Ahead",
            RefusalName::BadName => "BadName",
            RefusalName::NameTaken => "NameTaken",
            RefusalName::ModelsFull => "ModelsFull",
            RefusalName::BadText => "BadText",
            RefusalName::UnknownModel => "UnknownModel",
            RefusalName::InitFault => "InitFault",
            RefusalName::StateFull => "StateFull",
            RefusalName::Broken => "Broken",
            RefusalName::BadFormula => "BadFormula",
            RefusalName::BadInput => "BadInput",
            RefusalName::WireUnfit => "WireUnfit",
            RefusalName::Fault => "Fault",
            RefusalName::Clash => "Clash",
            RefusalName::JoinClash => "JoinClash",
            RefusalName::InvTaken => "InvTaken",
            RefusalName::UnknownInv => "UnknownInv",
            RefusalName::InvsFull => "InvsFull",
            RefusalName::NotInTrail => "NotInTrail",
            RefusalName::JournalFull => "JournalFull",
        }
    }
}

/// Why a line or a call is refused.
#[derive(Debug, Drop)]
pub struct Refusal {
    pub name: RefusalName,
    /// The fields that say where and by what, none where there is nothing to say.
    pub why: Port,
}

/// Puts a text under a key after the fields.
pub(crate) fn push_text(
    alloc: Global,
    fields: &mut List<Field>,
    key: &str,
    value: &str,
) -> Result<(), AllocError>
    ensures { OnOk result (fields.new ≡ fields.old ++ field key.now (text value.now) ∷ []) }
{
    push_field(alloc, fields, key, Port::from_text(alloc, value)?)
}

/// Why a text is no formula, in a reply.
fn formula_kind(why: &FormulaRefusal) -> &'static str
    ensures { result.now ≡ spec.formula_kind why.now }
{
    match why {
        FormulaRefusal::Syntax(_) => "Syntax",
        FormulaRefusal::TooMany => "TooMany",
        FormulaRefusal::Repeated(_) => "Repeated",
        FormulaRefusal::NoMemory => "",
    }
}

/// The byte at which a text is no formula, 0 where that is of the whole.
fn formula_place(why: &FormulaRefusal) -> u64
    ensures { result ≡ spec.formula_place why.now }
{
    match why {
        FormulaRefusal::Syntax(at) => *at,
        FormulaRefusal::TooMany | FormulaRefusal::Repeated(_) | FormulaRefusal::NoMemory => 0,
    }
}

/// A list of two trees.
fn pair(alloc: Global, first: Port, second: Port) -> Result<Port, AllocError>
    ensures { IfOk result (λ tree. tree ≡ list (first ∷ second ∷ [])) }
{
    let mut trees = List::new(alloc);
    trees.push(first)?;
    trees.push(second)?;
    Ok(Port::List(trees))
}

/// One field with a number.
fn one_number(alloc: Global, key: &str, value: u64) -> Result<List<Field>, AllocError>
    ensures { IfOk result (λ fields. fields ≡ field key.now (number value) ∷ []) }
{
    let mut fields = List::new(alloc);
    push_field(alloc, &mut fields, key, Port::from_number(value))?;
    Ok(fields)
}

/// One field with a text.
fn one_text(alloc: Global, key: &str, value: &str) -> Result<List<Field>, AllocError>
    ensures { IfOk result (λ fields. fields ≡ field key.now (text value.now) ∷ []) }
{
    let mut fields = List::new(alloc);
    push_text(alloc, &mut fields, key, value)?;
    Ok(fields)
}

impl Refusal {
    /// The refusal of this name with these fields. Takes no memory.
    pub fn with_fields(name: RefusalName, fields: List<Field>) -> Refusal
        ensures { result ≡ spec.refusal name fields }
    {
        Refusal {
            name,
            why: Port::Fields(fields),
        }
    }

    /// The refusal of what isn't built.
    pub fn unbuilt(alloc: Global) -> Refusal
        ensures { result ≡ spec.unbuilt }
    {
        Refusal::with_fields(RefusalName::Unbuilt, List::new(alloc))
    }

    /// The refusal of a line with more bytes than the limit.
    pub fn line_too_long(alloc: Global, limit: u64) -> Result<Refusal, AllocError>
        ensures { IfOk result (λ refusal. refusal ≡ spec.line_too_long limit) }
    {
        let fields = one_number(alloc, "limit", limit)?;
        Ok(Refusal::with_fields(RefusalName::LineTooLong, fields))
    }

    /// The refusal of a line that isn't JSON.
    pub fn bad_json(alloc: Global) -> Refusal
        ensures { result ≡ spec.bad_json }
    {
        Refusal::with_fields(RefusalName::BadJson, List::new(alloc))
    }

    /// The refusal of a request for the field under this key.
    pub fn bad_request(alloc: Global, key: &str) -> Result<Refusal, AllocError>
        ensures { IfOk result (λ refusal. refusal ≡ spec.bad_request key.now) }
    {
        let fields = one_text(alloc, "field", key)?;
        Ok(Refusal::with_fields(RefusalName::BadRequest, fields))
    }

    /// The refusal of a read that is to be answered after more entries than there are.
    pub fn ahead(alloc: Global, have: u64) -> Result<Refusal, AllocError>
        ensures { IfOk result (λ refusal. refusal ≡ spec.ahead have) }
    {
        let fields = one_number(alloc, "have", have)?;
        Ok(Refusal::with_fields(RefusalName::Ahead, fields))
    }

    /// The refusal of a name that no model may have.
    pub fn bad_name(alloc: Global) -> Refusal
        ensures { result ≡ spec.bad_name }
    {
        Refusal::with_fields(RefusalName::BadName, List::new(alloc))
    }

    /// The refusal of a name that a model has, which is at this version.
    pub fn name_taken(alloc: Global, name: &str, version: u64) -> Result<Refusal, AllocError>
        ensures { IfOk result (λ refusal. refusal ≡ spec.name_taken name.now version) }
    {
        let mut fields = List::new(alloc);
        push_text(alloc, &mut fields, "model", name)?;
        push_field(alloc, &mut fields, "version", Port::from_number(version))?;
        Ok(Refusal::with_fields(RefusalName::NameTaken, fields))
    }

    /// The refusal of one more model than the limit.
    pub fn models_full(alloc: Global, limit: u64) -> Result<Refusal, AllocError>
        ensures { IfOk result (λ refusal. refusal ≡ spec.models_full limit) }
    {
        let fields = one_number(alloc, "limit", limit)?;
        Ok(Refusal::with_fields(RefusalName::ModelsFull, fields))
    }

    /// The refusal of a text that has no program.
    pub fn bad_text(alloc: Global, bad: &BadText) -> Result<Refusal, AllocError>
        ensures { IfOk result (λ refusal. refusal ≡ spec.bad_text bad.now) }
    {
        let mut fields = List::new(alloc);
        let column = Port::from_number(u64::from(bad.column));
        push_field(alloc, &mut fields, "column", column)?;
        push_text(alloc, &mut fields, "kind", bad.kind.as_str())?;
        let line = Port::from_number(u64::from(bad.line));
        push_field(alloc, &mut fields, "line", line)?;
        push_text(alloc, &mut fields, "more", bad.more.as_str())?;
        Ok(Refusal::with_fields(RefusalName::BadText, fields))
    }

    /// The refusal of a name that no model has.
    pub fn unknown_model(alloc: Global, name: &str) -> Result<Refusal, AllocError>
        ensures { IfOk result (λ refusal. refusal ≡ spec.unknown_model name.now) }
    {
        let fields = one_text(alloc, "model", name)?;
        Ok(Refusal::with_fields(RefusalName::UnknownModel, fields))
    }

    /// The refusal of what is given for a function of a model; the function's name is empty where
    /// it is given for a model that doesn't step.
    pub fn bad_input(alloc: Global, function: &str, model: &str) -> Result<Refusal, AllocError>
        ensures { IfOk result (λ refusal. refusal ≡ spec.bad_input function.now model.now) }
    {
        let mut fields = List::new(alloc);
        push_text(alloc, &mut fields, "function", function)?;
        push_text(alloc, &mut fields, "model", model)?;
        Ok(Refusal::with_fields(RefusalName::BadInput, fields))
    }

    /// The refusal of a text that is no formula.
    pub fn bad_formula(alloc: Global, why: &FormulaRefusal) -> Result<Refusal, AllocError>
        ensures { IfOk result (λ refusal. refusal ≡ spec.bad_formula why.now) }
    {
        let mut fields = List::new(alloc);
        push_text(alloc, &mut fields, "kind", formula_kind(why))?;
        push_field(
            alloc,
            &mut fields,
            "place",
            Port::from_number(formula_place(why)),
        )?;
        Ok(Refusal::with_fields(RefusalName::BadFormula, fields))
    }

    /// The refusal of what other models offer for a function of a model.
    pub fn wire_unfit(alloc: Global, function: &str, model: &str) -> Result<Refusal, AllocError>
        ensures { IfOk result (λ refusal. refusal ≡ spec.wire_unfit function.now model.now) }
    {
        let mut fields = List::new(alloc);
        push_text(alloc, &mut fields, "function", function)?;
        push_text(alloc, &mut fields, "model", model)?;
        Ok(Refusal::with_fields(RefusalName::WireUnfit, fields))
    }

    /// The refusal of two values for one location: the arguments of a function, by its name.
    pub fn join_clash(
        alloc: Global,
        function: &Text,
        args: List<Port>,
        first: Port,
        second: Port,
    ) -> Result<Refusal, AllocError>
        ensures { IfOk result (λ refusal. refusal ≡ spec.join_clash
            (record { function = function.now; args = args; value = first })
            (record { function = function.now; args = args; value = second })) }
    {
        let values = pair(alloc, first, second)?;
        let mut fields = List::new(alloc);
        push_field(alloc, &mut fields, "args", Port::List(args))?;
        push_text(alloc, &mut fields, "function", function.as_str())?;
        push_field(alloc, &mut fields, "values", values)?;
        Ok(Refusal::with_fields(RefusalName::JoinClash, fields))
    }

    /// The refusal of a term that was asked for, whose evaluation has a fault of this kind.
    pub fn value_fault(alloc: Global, kind: &str, model: &str) -> Result<Refusal, AllocError>
        ensures { IfOk result (λ refusal. refusal ≡ spec.value_fault kind.now model.now) }
    {
        let mut fields = List::new(alloc);
        push_text(alloc, &mut fields, "kind", kind)?;
        push_text(alloc, &mut fields, "model", model)?;
        Ok(Refusal::with_fields(RefusalName::Fault, fields))
    }

    /// The refusal, under this name, of an invariant of a model.
    fn of_invariant(
        alloc: Global,
        name: RefusalName,
        inv: &str,
        model: &str,
    ) -> Result<Refusal, AllocError>
        ensures { IfOk result (λ refusal. refusal ≡ spec.invariant_of name inv.now model.now) }
    {
        let mut fields = List::new(alloc);
        push_text(alloc, &mut fields, "inv", inv)?;
        push_text(alloc, &mut fields, "model", model)?;
        Ok(Refusal::with_fields(name, fields))
    }

    /// The refusal of an invariant under a name that one of the model has.
    pub fn inv_taken(alloc: Global, inv: &str, model: &str) -> Result<Refusal, AllocError>
        ensures { IfOk result (λ refusal. refusal ≡ spec.inv_taken inv.now model.now) }
    {
        Refusal::of_invariant(alloc, RefusalName::InvTaken, inv, model)
    }

    /// The refusal of a name that no invariant of the model has.
    pub fn unknown_inv(alloc: Global, inv: &str, model: &str) -> Result<Refusal, AllocError>
        ensures { IfOk result (λ refusal. refusal ≡ spec.unknown_inv inv.now model.now) }
    {
        Refusal::of_invariant(alloc, RefusalName::UnknownInv, inv, model)
    }

    /// The refusal of one more invariant of a model than the limit.
    pub fn invs_full(alloc: Global, limit: u64, model: &str) -> Result<Refusal, AllocError>
        ensures { IfOk result (λ refusal. refusal ≡ spec.invs_full limit model.now) }
    {
        let mut fields = List::new(alloc);
        push_field(alloc, &mut fields, "limit", Port::from_number(limit))?;
        push_text(alloc, &mut fields, "model", model)?;
        Ok(Refusal::with_fields(RefusalName::InvsFull, fields))
    }

    /// The refusal of a version that isn't among the earlier ones of a model, of which these are
    /// the newest and the oldest; both are 0 where there are none.
    pub fn not_in_trail(
        alloc: Global,
        model: &str,
        newest: u64,
        oldest: u64,
    ) -> Result<Refusal, AllocError>
        ensures { IfOk result
            (λ refusal. refusal ≡ spec.not_in_trail model.now newest oldest) }
    {
        let mut fields = List::new(alloc);
        push_text(alloc, &mut fields, "model", model)?;
        push_field(alloc, &mut fields, "newest", Port::from_number(newest))?;
        push_field(alloc, &mut fields, "oldest", Port::from_number(oldest))?;
        Ok(Refusal::with_fields(RefusalName::NotInTrail, fields))
    }

    /// The refusal of an entry that adds more to the journal's weight than there is room for.
    pub fn journal_full(alloc: Global, adds: u64, weight: u64) -> Result<Refusal, AllocError>
        ensures { IfOk result (λ refusal. refusal ≡ spec.journal_full adds weight) }
    {
        let mut fields = List::new(alloc);
        push_field(alloc, &mut fields, "adds", Port::from_number(adds))?;
        push_field(alloc, &mut fields, "weight", Port::from_number(weight))?;
        Ok(Refusal::with_fields(RefusalName::JournalFull, fields))
    }

    /// Its name in a reply.
    pub fn name(&self) -> &'static str
        ensures { result.now ≡ spec.name_of self.now }
    {
        self.name.text()
    }

    /// The fields that it holds.
    pub fn why(&self) -> &Port
        ensures { result.now ≡ spec.why_of self.now }
    {
        &self.why
    }

    /// Puts the fields of the reply that tells it, besides the number, after the fields.
    pub(crate) fn push_fields(
        &self,
        alloc: Global,
        fields: &mut List<Field>,
    ) -> Result<(), AllocError>
        ensures { OnOk result (fields.new ≡ fields.old ++ refusal_fields self.now) }
    {
        push_text(alloc, fields, "no", self.name())?;
        push_field(alloc, fields, "why", self.why.copy(alloc)?)
    }
}
