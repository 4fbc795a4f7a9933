//! Tests of the order and of copies of names.
use cl_model::Name;
use std::test::Fail;

/// Reads a word as a name.
fn name(word: &str) -> Result<Name, Fail> {
    Ok(Name::read(word.as_bytes()).ok_or("not a name")?)
}

#[test]
fn orders_and_copies_names(rt: HostRuntime) -> Result<(), Fail> {
    let (first, second) = (name("a")?, name("ab")?);
    assert!(rt; first < second);
    assert!(rt; second.copy() == second);
    Ok(())
}
