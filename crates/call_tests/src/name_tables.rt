//! Tables of names.
use easl_model::Name;
use name_table::NameTable;
use std::alloc::{AllocError, Global};
use std::test::Fail;

fn name(alloc: Global, text: &str) -> Result<Name, AllocError> {
    Ok(Name(String::from_str(alloc, text)?))
}

#[test]
fn finds_the_first(rt: HostRuntime) -> Result<(), Fail> {
    let one = name(rt.alloc(), "one")?;
    let two = name(rt.alloc(), "two")?;
    let mut table = NameTable::new(rt.alloc());
    assert!(rt; table.push(&one).is_ok());
    assert!(rt; table.push(&two).is_ok());
    assert!(rt; table.push(&one).is_ok());
    assert_eq!(rt; table.len(), 3);
    assert_eq!(rt; table.first(&one), Some(0));
    assert_eq!(rt; table.first(&two), Some(1));
    table.truncate(1);
    assert_eq!(rt; table.first(&one), Some(0));
    assert_eq!(rt; table.first(&two), None);
    Ok(())
}
