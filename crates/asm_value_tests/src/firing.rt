//! Sets of updates and what firing them leaves, worked out by hand.
use asm_fire::fire_in_place;
use asm_state::State;
use asm_updates::UpdateSet;
use asm_value::{Args, Location, Subject, Update, Value};
use std::alloc::{AllocError, Global};
use std::test::Fail;

/// The location of a function with this integer as its argument.
fn at(alloc: Global, argument: i128) -> Result<Location, AllocError> {
    let mut args = Args::new(alloc);
    args.push(Value::Int(argument))?;
    let subject = Subject::Function(0);
    Ok(Location { subject, args })
}

/// The set with an integer for each location, which is given by its argument.
fn set_of(alloc: Global, pairs: &[(i128, i128)]) -> Result<UpdateSet, AllocError> {
    let mut set = UpdateSet::new(alloc);
    for (argument, number) in pairs {
        let location = at(alloc, *argument)?;
        let value = Value::Int(*number);
        set.add(Update { location, value })?;
    }
    Ok(set)
}

/// Whether the clash is at this argument, with these two values.
fn clashes_at(set: &UpdateSet, argument: i128, first: i128, second: i128) -> bool {
    match set.clash() {
        Some(clash) => {
            clash.location.args.as_slice() == [Value::Int(argument)].as_slice()
                && clash.first.as_int() == Some(first)
                && clash.second.as_int() == Some(second)
        }
        None => false,
    }
}

fn least_clash(alloc: Global) -> Result<bool, AllocError> {
    let set = set_of(alloc, &[(2, 1), (1, 5), (1, 9), (1, 3), (2, 0)])?;
    Ok(clashes_at(&set, 1, 3, 5))
}

#[test]
fn the_least_location_clashes_with_its_two_least_values(rt: HostRuntime) -> Result<(), Fail> {
    assert!(rt; least_clash(rt.alloc())?);
    Ok(())
}

fn overlay_weighs_six(alloc: Global) -> Result<bool, AllocError> {
    let mut set = set_of(alloc, &[(1, 5), (2, 6), (2, 6)])?;
    set.then(&set_of(alloc, &[(2, 7)])?)?;
    Ok(set.clash().is_none() && set.weight() == 6)
}

fn union_weighs_nine(alloc: Global) -> Result<bool, AllocError> {
    let mut set = set_of(alloc, &[(1, 5), (2, 6), (2, 6)])?;
    set.union(&set_of(alloc, &[(2, 7)])?)?;
    Ok(set.clash().is_some() && set.weight() == 9)
}

#[test]
fn later_updates_replace_the_earlier_and_united_ones_are_beside_them(
    rt: HostRuntime,
) -> Result<(), Fail> {
    assert!(rt; overlay_weighs_six(rt.alloc())?);
    assert!(rt; union_weighs_nine(rt.alloc())?);
    Ok(())
}

/// Fires the set where it has no clash, and whether it has none.
fn fired(alloc: Global, state: &mut State, set: &UpdateSet) -> Result<bool, AllocError> {
    if set.clash().is_none() {
        fire_in_place(alloc, state, set)?;
        return Ok(true);
    }
    Ok(false)
}

/// The set of one update.
fn one_update(alloc: Global, argument: i128, value: &Value) -> Result<UpdateSet, AllocError> {
    let mut set = UpdateSet::new(alloc);
    let location = at(alloc, argument)?;
    let value = value.copy(alloc)?;
    set.add(Update { location, value })?;
    Ok(set)
}

/// Fires one update, and whether that could be done.
fn written(
    alloc: Global,
    state: &mut State,
    argument: i128,
    value: &Value,
) -> Result<bool, AllocError> {
    let set = one_update(alloc, argument, value)?;
    fired(alloc, state, &set)
}

/// Whether the location has the value.
fn has_value(
    alloc: Global,
    state: &State,
    argument: i128,
    value: &Value,
) -> Result<bool, AllocError> {
    let location = at(alloc, argument)?;
    Ok(state.get(&location) == value)
}

/// Whether the update was fired, and the location then has the value and the state the weight.
fn leaves(
    alloc: Global,
    state: &mut State,
    argument: i128,
    value: &Value,
    weight: u64,
) -> Result<bool, AllocError> {
    let done = written(alloc, state, argument, value)?;
    Ok(done && has_value(alloc, state, argument, value)? && state.weight() == weight)
}

fn weights_of_a_state(alloc: Global) -> Result<bool, AllocError> {
    let mut state = State::new(alloc);
    Ok(
        leaves(alloc, &mut state, 0, &Value::Int(5), 3)?
            && leaves(alloc, &mut state, 1, &Value::Int(7), 6)?
            && leaves(alloc, &mut state, 0, &Value::Truth(true), 6)?
            && leaves(alloc, &mut state, 0, &Value::Undef, 3)?,
    )
}

#[test]
fn a_location_weighs_with_its_value_until_it_is_undef(rt: HostRuntime) -> Result<(), Fail> {
    assert!(rt; weights_of_a_state(rt.alloc())?);
    Ok(())
}

/// Fires the set of these pairs, and whether that could be done.
fn all_written(
    alloc: Global,
    state: &mut State,
    pairs: &[(i128, i128)],
) -> Result<bool, AllocError> {
    let set = set_of(alloc, pairs)?;
    fired(alloc, state, &set)
}

fn fires_both(alloc: Global) -> Result<bool, AllocError> {
    let mut state = State::new(alloc);
    Ok(
        all_written(alloc, &mut state, &[(0, 1), (1, 2)])?
            && all_written(alloc, &mut state, &[(1, 3), (2, 4)])?
            && has(alloc, &state, &[(0, 1), (1, 3), (2, 4)])?,
    )
}

/// Whether the location of each argument has the integer beside it.
fn has(alloc: Global, state: &State, pairs: &[(i128, i128)]) -> Result<bool, AllocError> {
    for (argument, number) in pairs {
        if !has_value(alloc, state, *argument, &Value::Int(*number))? {
            return Ok(false);
        }
    }
    Ok(true)
}

#[test]
fn a_second_set_overwrites_and_other_locations_stay(rt: HostRuntime) -> Result<(), Fail> {
    assert!(rt; fires_both(rt.alloc())?);
    Ok(())
}
