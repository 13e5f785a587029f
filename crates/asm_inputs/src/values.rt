//! One location with its value.
ghost use Rattle.std.specs.Prelude.{◌≡◌, option_map, IfOk};
ghost use Rattle.asm_value.specs.Living.{live_of};
ghost use Rattle.asm_board.specs.Inputs as spec;

use asm_board::Content;
use asm_portable::{Port, PortableRefusal, value_of};
use asm_program::{FunctionInfo, Program};
use asm_value::{Args, Domain, Domains, Live, Location, Subject, Update, Value};
use std::alloc::{AllocError, Global};

/// A model's content, with the members that its domains have.
#[derive(Drop)]
pub(crate) struct Present<'a> {
    pub content: &'a Content,
    pub live: Live,
    pub ghost lives: { live ≡ live_of content.now.state content.now.program.domains },
}

impl<'a> Present<'a> {
    /// What is present in a content.
    pub(crate) fn new(alloc: Global, content: &'a Content) -> Result<Present<'a>, AllocError>
        ensures { IfOk result (λ present. present.content.now ≡ content.now) }
    {
        let live = content
            .state()
            .get()
            .live(alloc, &content.program().get().domains)?;
        Ok(Present { content, live })
    }

    /// The program of the content.
    pub(crate) fn program(&self) -> &'a Program
        ensures { result.now ≡ self.now.content.now.program }
    {
        self.content.program().get()
    }
}

/// A value of the domain, if the tree stands for one.
fn value_in(
    alloc: Global,
    present: &Present<'_>,
    domain: &Domain,
    tree: &Port,
) -> Result<Option<Value>, AllocError>
    ensures { IfOk result (λ value. value
        ≡ spec.value_in present.now.content.now domain.now tree.now) }
{
    match value_of(
        alloc,
        &present.program().domains,
        domain,
        &present.live,
        tree,
    ) {
        Ok(value) => Ok(Some(value)),
        Err(PortableRefusal::Misfit(_)) => Ok(None),
        Err(PortableRefusal::NoMemory) => Err(AllocError),
    }
}

/// A value of the domain, or undef where the tree is null.
fn value_or_undef(
    alloc: Global,
    present: &Present<'_>,
    domain: &Domain,
    tree: &Port,
) -> Result<Option<Value>, AllocError>
    ensures { IfOk result (λ value. value
        ≡ spec.value_or_undef present.now.content.now domain.now tree.now) }
{
    if tree.is_null() {
        return Ok(Some(Value::Undef));
    }
    value_in(alloc, present, domain, tree)
}

/// The arguments from these domains and trees on, as many as there are domains.
fn args_in(
    alloc: Global,
    present: &Present<'_>,
    domains: &[Domain],
    trees: &[Port],
) -> Result<Option<Args>, AllocError>
    ensures { IfOk result (λ args. args
        ≡ spec.args_in present.now.content.now domains.now trees.now) }
{
    if domains.len() != trees.len() {
        return Ok(None);
    }
    let mut args = Args::new(alloc);
    for (at, domain) in domains.iter().enumerate() {
        match value_in(alloc, present, domain, &trees[at])? {
            Some(value) => args.push(value)?,
            None => return Ok(None),
        }
    }
    Ok(Some(args))
}

/// The update of a function's location to a value.
fn set_to(function: u16, args: Args, value: Value) -> Update
    ensures { result ≡ spec.set_to function args value }
{
    let location = Location {
        subject: Subject::Function(function),
        args,
    };
    Update { location, value }
}

/// The update of a function's location to the value for which a tree stands, if it stands for one.
fn update_at(
    alloc: Global,
    present: &Present<'_>,
    function: u16,
    args: Args,
    domain: &Domain,
    tree: &Port,
) -> Result<Option<Update>, AllocError>
    ensures { IfOk result (λ update. update ≡ option_map (spec.set_to function args)
        (spec.value_or_undef present.now.content.now domain.now tree.now)) }
{
    match value_or_undef(alloc, present, domain, tree)? {
        Some(value) => Ok(Some(set_to(function, args, value))),
        None => Ok(None),
    }
}

/// The update of a function's location to a value, if these trees stand for them.
pub(crate) fn update_in(
    alloc: Global,
    present: &Present<'_>,
    function: u16,
    info: &FunctionInfo,
    args: &[Port],
    tree: &Port,
) -> Result<Option<Update>, AllocError>
    ensures { IfOk result (λ update. update ≡ spec.update_in
        present.now.content.now function info.now args.now tree.now) }
{
    match args_in(alloc, present, info.args.as_slice(), args)? {
        Some(args) => update_at(alloc, present, function, args, &info.result, tree),
        None => Ok(None),
    }
}
