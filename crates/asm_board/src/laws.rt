//! Laws of journals, steps and models, over the definitions alone: each function does nothing.
ghost use Rattle.std.specs.Prelude.{ℕ, ◌≡◌, ◌≢◌, ◌≤◌, ◌<◌, ◌+◌, ◌↔◌, true, false, List, ◌++◌, map, filter, length, Option, option_to_list, Some, None, Ok, Err, All, IsSome};
ghost use Rattle.std.specs.List.{Contains};
ghost use Rattle.asm_value.specs.declared.value.Value.{Value};
ghost use Rattle.asm_value.specs.declared.location.Location.{Location};
ghost use Rattle.asm_value.specs.declared.location.Update.{Update};
ghost use Rattle.asm_value.specs.UpdateSet.{UpdateSet, items};
ghost use Rattle.asm_value.specs.State.{StateMap, IsConsistent, IsClash};
ghost use Rattle.asm_program.specs.declared.program.Inv.{Inv};
ghost use Rattle.asm_program.specs.declared.program.Program.{Program};
ghost use Rattle.asm_program.specs.Invariants.{first_broken, AllHold};
ghost use Rattle.asm_portable.specs.declared.port.Port.{Port};
ghost use Rattle.asm_portable.specs.declared.port.Field.{Field};
ghost use Rattle.asm_portable.specs.Ports.{AscendByKey};
ghost use Rattle.asm_board.specs.declared.prepared.Accepted.{Accepted};
ghost use Rattle.asm_board.specs.declared.board.Board.{Board};
ghost use Rattle.asm_board.specs.declared.board.Slot.{Slot};
ghost use Rattle.asm_board.specs.declared.call.Call.{Call};
ghost use Rattle.asm_board.specs.declared.call.Call.TheVariants.{Step, Models as ListModels, Log};
ghost use Rattle.asm_board.specs.declared.entry.Entry.{Entry};
ghost use Rattle.asm_board.specs.declared.refusal.Refusal.{Refusal};
ghost use Rattle.asm_board.specs.declared.reply.Body.TheVariants as bodies;
ghost use Rattle.asm_board.specs.Meanings.{Meanings};
ghost use Rattle.asm_board.specs.Stepping.{first_clash};
ghost use Rattle.asm_board.specs.Refusals.{ahead};
ghost use Rattle.asm_board.specs.Calls.{is_change, is_log, since_of, footprint};
ghost use Rattle.asm_board.specs.Reads.{read};
ghost use Rattle.asm_board.specs.Logs.{asked_of, log_shown, is_numbered};
ghost use Rattle.asm_board.specs.Slots.{Models, AscendByName, slot_in};
ghost use Rattle.asm_board.specs.Changes.{change};
ghost use Rattle.asm_board.specs.Boards.{applied, body_of_read, board_of, change_at};
ghost use Rattle.asm_board.specs.Answers.{Legal, without_entry, answer, answer_at};
ghost use Rattle.asm_board.specs.Shown.{functions_listed, models_shown, IsDefinedFunction, NamesDiffer};
ghost use Rattle.asm_board.specs.Numbers.{TellsItsNumber};
ghost use Rattle.asm_board.specs.Journals.{IsAcceptedChange, PreparedStillStands, entries_weight};
ghost use Rattle.asm_board.specs.Steps.{FireTheirSets, StepTogether};
ghost use Rattle.asm_board.specs.Sources.{EachKeepsSources};
ghost use Rattle.asm_board.specs.Trails.{EachMeetsItsInvariants, EachHasFewPairs, Follows, Remembers, Begins};

// ---- journals

/// A reply tells the number of entries after which it is given, its own among them. Its entry is of
/// its seat and its call, and holds what it says.
pub fn an_answer_tells_its_number(room: u64)
    ensures { (m : Meanings) (journal : List Entry) (seat : ℕ) (call : Call) →
        TellsItsNumber (length journal) seat call (answer m room journal seat call) }
{
    let _ = room;
}

/// An answer has an entry exactly where its call may change the models and its body is no refusal,
/// be it since the models or the journal are full.
pub fn an_answer_has_an_entry_exactly_where_it_is_an_accepted_change(room: u64)
    ensures { (m : Meanings) (journal : List Entry) (seat : ℕ) (call : Call) →
        IsSome (answer m room journal seat call).entry
        ↔ IsAcceptedChange call (answer m room journal seat call).reply.body }
{
    let _ = room;
}

/// A legal journal stays legal with the entry of the answer to any call.
pub fn a_journal_grows_legally(room: u64)
    ensures { (m : Meanings) (journal : List Entry) (seat : ℕ) (call : Call) →
        Legal m room journal →
        Legal m room (journal ++ option_to_list (answer m room journal seat call).entry) }
{
    let _ = room;
}

/// Each entry of a legal journal is an accepted change: its call may change the models, and its
/// body is no refusal.
pub fn each_entry_is_an_accepted_change(room: u64)
    ensures { (m : Meanings) (journal : List Entry) → Legal m room journal →
        All (λ entry. IsAcceptedChange entry.call entry.body) journal }
{
    let _ = room;
}

/// The board of a legal journal has the weight of its entries together, which never exceeds the
/// room.
pub fn a_journal_weighs_what_its_entries_do(room: u64)
    ensures sum { (m : Meanings) (journal : List Entry) → Legal m room journal →
        (board_of m journal).weight ≡ entries_weight journal }
    ensures within { (m : Meanings) (journal : List Entry) → Legal m room journal →
        entries_weight journal ≤ room }
{
    let _ = room;
}

/// A read that is to be answered after more entries than there are is `Ahead`, and tells how many
/// there are. Any other shows what it asks for: a log the entries of the journal for which it asks,
/// and another what it reads of the models.
pub fn a_read_is_ahead_or_shows_what_it_asks_for(room: u64)
    ensures ahead { (m : Meanings) (journal : List Entry) (seat : ℕ) (call : Call) →
        is_change call ≡ false → length journal < since_of call →
        answer m room journal seat call
        ≡ without_entry (length journal) (bodies.No (ahead (length journal))) }
    ensures log { (m : Meanings) (journal : List Entry) (seat : ℕ) (call : Call) →
        is_log call ≡ true → since_of call ≤ length journal →
        answer m room journal seat call
        ≡ without_entry (length journal) (bodies.Ok (log_shown (asked_of call journal))) }
    ensures shown { (m : Meanings) (journal : List Entry) (seat : ℕ) (call : Call) →
        is_change call ≡ false → is_log call ≡ false → since_of call ≤ length journal →
        answer m room journal seat call
        ≡ without_entry (length journal) (body_of_read (read m (board_of m journal).slots call)) }
{
    let _ = room;
}

/// The entries of a legal journal for which a log asks are those of the numbers that it names, in
/// their order.
pub fn a_log_asks_for_the_entries_of_its_numbers(room: u64)
    ensures { (m : Meanings) (journal : List Entry) (from count since : ℕ) →
        Legal m room journal →
        asked_of (Log from count since) journal ≡ filter (is_numbered from count) journal }
{
    let _ = room;
}

/// A prepared change whose versions are still the same stands at the later board too, and is
/// settled as the one-thread server answers.
pub fn still_stands(room: u64)
    ensures { PreparedStillStands room }
{
    let _ = room;
}

// ---- models

/// An entry of any call leaves each model outside its footprint as it was: version, content and
/// trail.
pub fn a_change_leaves_other_models_as_they_were()
    ensures { (m : Meanings) (board : Board) (entry : Entry) (name : List ℕ) →
        (Contains (footprint entry.call) name → ⊥) →
        slot_in (applied m board entry).slots name ≡ slot_in board.slots name }
{}

/// The models that a journal leaves ascend by name, each once, and the call that asks for the
/// models is answered by them in that order, each with its version, unless it is to be answered
/// after more entries.
pub fn models_ascend_by_name(room: u64)
    ensures ascend { (m : Meanings) (journal : List Entry) →
        AscendByName (board_of m journal).slots }
    ensures shown { (m : Meanings) (journal : List Entry) (seat since : ℕ) →
        since ≤ length journal →
        (answer m room journal seat (ListModels since)).reply.body
        ≡ bodies.Ok (models_shown (board_of m journal).slots) }
{
    let _ = room;
}

/// The functions that are shown of a state ascend by name, each once. Each is one that is defined,
/// with its value; and where the program's names differ, each that is defined is shown.
pub fn a_state_shows_its_defined_functions()
    ensures ascend { (program : Program) (state : StateMap) →
        AscendByKey (functions_listed program state) }
    ensures defined { (program : Program) (state : StateMap) (shown : Field) →
        Contains (functions_listed program state) shown → IsDefinedFunction program state shown }
    ensures all { (program : Program) (state : StateMap) (shown : Field) → NamesDiffer program →
        IsDefinedFunction program state shown → Contains (functions_listed program state) shown }
{}

// ---- invariants and trails

/// No invariant is the first broken one exactly where all hold.
pub fn none_is_broken_exactly_where_all_hold()
    ensures { (program : Program) (state : StateMap) (invs : List Inv) →
        (first_broken program state invs ≡ None) ↔ AllHold program state invs }
{}

/// Each model of any journal's board has a state that weighs at most 65,536 and meets its
/// invariants, and so has each earlier content that it remembers.
pub fn each_model_meets_its_invariants()
    ensures { (m : Meanings) (journal : List Entry) →
        EachMeetsItsInvariants (board_of m journal).slots }
{}

/// Each invariant of each model of any journal's board, and of each earlier content that it
/// remembers, is one of its program's text, or was added, and its source is the text of its Boolean
/// term over the program.
#[tactic(auto, using(crate::proofs::Sources::each_keeps))]
pub fn each_invariant_has_its_source()
    ensures { (m : Meanings) (journal : List Entry) →
        EachKeepsSources m (board_of m journal).slots }
{}

/// No model of any journal's board remembers more than 16 earlier contents.
pub fn a_trail_has_at_most_16_pairs()
    ensures { (m : Meanings) (journal : List Entry) → EachHasFewPairs (board_of m journal).slots }
{}

/// An entry leaves a model as it was, takes it away, or gives it a new content at the entry's
/// number. Then what it was before is its newest pair, and a model that is new has none.
pub fn a_change_remembers_what_was_before()
    ensures follows { (m : Meanings) (board : Board) (entry : Entry) (name : List ℕ) →
        Follows (board.front + 1) (slot_in board.slots name)
        (slot_in (applied m board entry).slots name) }
    ensures changed { (m : Meanings) (board : Board) (entry : Entry) (name : List ℕ)
        (earlier later : Slot) → slot_in board.slots name ≡ Some earlier →
        slot_in (applied m board entry).slots name ≡ Some later → later ≢ earlier →
        Remembers (board.front + 1) earlier later }
    ensures loaded { (m : Meanings) (board : Board) (entry : Entry) (name : List ℕ)
        (later : Slot) → slot_in board.slots name ≡ None →
        slot_in (applied m board entry).slots name ≡ Some later →
        Begins (board.front + 1) later }
{}

// ---- steps

/// In a step that is accepted each model of the formula fires the consistent set that its main rule
/// yields for the pick with its inputs, into a state that is light and meets the model's invariants.
pub fn an_accepted_step_fires_consistent_sets()
    ensures { (m : Meanings) (models : Models) (formula : List ℕ) (inputs : Port)
        (pick : Option ℕ) (step : Accepted) → change m models (Step formula inputs pick) ≡ Ok step
        → FireTheirSets m models formula inputs pick step }
{}

/// A change that is refused makes no entry, so the board stays as it is.
pub fn a_refused_change_makes_no_entry(room: u64)
    ensures { (m : Meanings) (board : Board) (seat : ℕ) (call : Call) (why : Refusal) →
        change_at m board call ≡ Err why → (answer_at m room board seat call).entry ≡ None }
{
    let _ = room;
}

/// All or none: the entry of a step leaves each model of the formula with a consistent set fired, at
/// one version, and what it was before as its newest pair, and each other model as it was. A step
/// that is refused makes no entry, so it changes none.
pub fn all_models_of_a_formula_step_or_none(room: u64)
    ensures all { (m : Meanings) (board : Board) (seat : ℕ) (formula : List ℕ) (inputs : Port)
        (pick : Option ℕ) (entry : Entry)
        → (answer_at m room board seat (Step formula inputs pick)).entry ≡ Some entry
        → StepTogether m board formula inputs pick entry }
    ensures none { (m : Meanings) (board : Board) (seat : ℕ) (formula : List ℕ) (inputs : Port)
        (pick : Option ℕ) (why : Refusal)
        → change_at m board (Step formula inputs pick) ≡ Err why
        → (answer_at m room board seat (Step formula inputs pick)).entry ≡ None }
{
    let _ = room;
}

// ---- clashes

/// Where no two updates come first, no location has two values. Where two do, they are of one
/// location, the least with two values, and have its two least values.
pub fn a_first_clash_is_a_clash()
    ensures none { (updates : UpdateSet) →
        first_clash (items updates) ≡ None → IsConsistent updates }
    ensures some { (updates : UpdateSet) (u v : Update) →
        first_clash (items updates) ≡ Some (u, v) →
        (u.location ≡ v.location) × IsClash updates u.location u.value v.value }
{}

/// The other way round: a consistent set has no first clash, and a set's clash is the first.
pub fn the_first_clash_is_the_clash()
    ensures none { (updates : UpdateSet) →
        IsConsistent updates → first_clash (items updates) ≡ None }
    ensures some { (updates : UpdateSet) (l : Location) (first second : Value) →
        IsClash updates l first second → first_clash (items updates)
        ≡ Some (record { location = l; value = first }, record { location = l; value = second }) }
{}
