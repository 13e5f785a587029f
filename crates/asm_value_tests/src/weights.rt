//! Weights and sizes, worked out by hand.
use asm_value::{Location, Text, Value};
use std::alloc::{AllocError, Global};
use std::mem::size_of;
use std::test::Fail;

/// A number of bytes, and the weight of a text that has so many.
const WEIGHTS: [(usize, u64); 6] = [(0, 1), (31, 1), (32, 2), (63, 2), (64, 3), (1024, 33)];

fn text_of(alloc: Global, bytes: usize) -> Result<Text, AllocError> {
    let mut text = Text::new(alloc);
    for _ in 0..bytes {
        text.push_str("a")?;
    }
    Ok(text)
}

fn texts_weigh(alloc: Global) -> Result<bool, AllocError> {
    for (bytes, weight) in WEIGHTS {
        let text = text_of(alloc, bytes)?;
        if text.weight() != weight || Value::Chars(text).weight() != weight {
            return Ok(false);
        }
    }
    Ok(true)
}

#[test]
fn a_text_gains_a_unit_at_each_32nd_byte(rt: HostRuntime) -> Result<(), Fail> {
    assert!(rt; texts_weigh(rt.alloc())?);
    Ok(())
}

#[test]
fn values_and_locations_are_small(rt: HostRuntime) {
    assert_eq!(rt; size_of::<Value>(), 32);
    assert_eq!(rt; size_of::<Location>(), 112);
}
