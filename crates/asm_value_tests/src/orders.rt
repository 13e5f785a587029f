//! Orders, worked out by hand.
use asm_value::{Args, Boxed, List, Location, Subject, Text, Value};
use std::alloc::{AllocError, Global};
use std::test::Fail;

/// Each text with one that comes after it.
const TEXTS: [(&str, &str); 5] = [("", "a"), ("a", "ab"), ("ab", "b"), ("Z", "a"), ("z", "é")];

fn texts_ascend(alloc: Global) -> Result<bool, AllocError> {
    for (less, more) in TEXTS {
        let first = Text::from_str(alloc, less)?;
        let second = Text::from_string(String::from_str(alloc, more)?);
        if first >= second || first.copy(alloc)? != first {
            return Ok(false);
        }
    }
    Ok(true)
}

#[test]
fn texts_go_by_bytes_with_a_prefix_first(rt: HostRuntime) -> Result<(), Fail> {
    assert!(rt; texts_ascend(rt.alloc())?);
    Ok(())
}

fn lists_ascend(alloc: Global) -> Result<bool, AllocError> {
    let list = List::only(alloc, 1u8)?;
    let mut longer = List::from_vec(vec![in alloc; 1u8, 0]?);
    let is_less = list < longer;
    longer.push(2)?;
    Ok(is_less && longer.as_slice() == [1u8, 0, 2].as_slice() && longer.len() == 3)
}

#[test]
fn lists_go_by_items_with_a_prefix_first(rt: HostRuntime) -> Result<(), Fail> {
    assert!(rt; lists_ascend(rt.alloc())?);
    Ok(())
}

fn integers(alloc: Global, numbers: &[i128]) -> Result<List<Value>, AllocError> {
    let mut items = List::new(alloc);
    for number in numbers {
        items.push(Value::Int(*number))?;
    }
    Ok(items)
}

fn chars(alloc: Global, text: &str) -> Result<Value, AllocError> {
    Ok(Value::Chars(Text::from_str(alloc, text)?))
}

/// Values without parts, ascending.
fn plain_values(alloc: Global) -> Result<List<Value>, AllocError> {
    let mut values = List::new(alloc);
    values.push(Value::Undef)?;
    values.push(Value::Truth(true))?;
    values.push(Value::Int(-7))?;
    values.push(chars(alloc, "b")?)?;
    for index in [2, 3] {
        values.push(Value::Member { domain: 1, index })?;
    }
    Ok(values)
}

/// A value of each kind that has parts, and one more sequence, ascending.
fn values_of_parts(alloc: Global) -> Result<List<Value>, AllocError> {
    let mut values = List::new(alloc);
    values.push(Value::Tuple(integers(alloc, &[9])?))?;
    values.push(Value::Seq(integers(alloc, &[4])?))?;
    values.push(Value::Seq(integers(alloc, &[4, -9])?))?;
    values.push(Value::Set(List::new(alloc)))?;
    Ok(values)
}

fn ascend(values: &[Value]) -> bool {
    values.windows(2).all(|pair| pair[0] < pair[1])
}

fn kinds_ascend(alloc: Global) -> Result<bool, AllocError> {
    let plain = plain_values(alloc)?;
    let parted = values_of_parts(alloc)?;
    Ok(ascend(plain.as_slice()) && ascend(parted.as_slice()))
}

fn parts_come_last(alloc: Global) -> Result<bool, AllocError> {
    let member = Value::Member {
        domain: 9,
        index: 9,
    };
    let tuple = Value::Tuple(List::new(alloc));
    Ok(member < tuple)
}

#[test]
fn kinds_ascend_and_a_prefix_comes_first(rt: HostRuntime) -> Result<(), Fail> {
    assert!(rt; kinds_ascend(rt.alloc())?);
    assert!(rt; parts_come_last(rt.alloc())?);
    Ok(())
}

fn location(alloc: Global, subject: Subject, numbers: &[i128]) -> Result<Location, AllocError> {
    let mut args = Args::new(alloc);
    for number in numbers {
        args.push(Value::Int(*number))?;
    }
    Ok(Location { subject, args })
}

fn locations_ascend(alloc: Global) -> Result<bool, AllocError> {
    let first = location(alloc, Subject::Function(1), &[5, 6, 7])?;
    let second = location(alloc, Subject::Function(2), &[5])?;
    let third = location(alloc, Subject::Domain(0), &[5])?;
    Ok(first < second && second < third && first.copy(alloc)? == first)
}

#[test]
fn functions_come_before_domains_and_arguments_last(rt: HostRuntime) -> Result<(), Fail> {
    assert!(rt; locations_ascend(rt.alloc())?);
    Ok(())
}

fn box_gives_back(alloc: Global) -> Result<bool, AllocError> {
    let boxed = Boxed::new(alloc, 7u8)?;
    Ok(*boxed.get() == 7 && boxed.into_inner() == 7)
}

#[test]
fn a_box_gives_back_what_was_put_in(rt: HostRuntime) -> Result<(), Fail> {
    assert!(rt; box_gives_back(rt.alloc())?);
    Ok(())
}
