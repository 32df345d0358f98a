use ost_types::{Csum, NoMemory};
use ref_book::RefBook;
use rely_guarantee::Event;
use repo_layout::RefName;
use std::alloc::Global;
use std::process::Abort;
use std::test::Fail;

fn name(rt: &impl Abort, alloc: Global, text: &[u8]) -> Result<RefName, NoMemory> {
    let name = RefName::parse(alloc, text)?;
    Ok(name.expect(rt, "the name of a ref"))
}

fn three(rt: &impl Abort, alloc: Global) -> Result<RefBook, NoMemory> {
    let mut start = Vec::new(alloc);
    start.push((name(rt, alloc, b"main")?, Csum::from_bytes([1; 32])))?;
    start.push((name(rt, alloc, b"main-a")?, Csum::from_bytes([2; 32])))?;
    start.push((name(rt, alloc, b"other")?, Csum::from_bytes([3; 32])))?;
    RefBook::new(alloc, &start)
}

#[test]
fn finds_the_refs_of_the_opening(rt: HostRuntime) -> Result<(), Fail> {
    let alloc = rt.alloc();
    let book = three(&rt, alloc)?;
    assert!(&rt; book.get(&name(&rt, alloc, b"main")?) == Some(Csum::from_bytes([1; 32])));
    assert!(&rt; book.get(&name(&rt, alloc, b"main-b")?).is_none());
    Ok(())
}

#[test]
fn a_dropped_ref_is_not_listed(rt: HostRuntime) -> Result<(), Fail> {
    let alloc = rt.alloc();
    let mut book = three(&rt, alloc)?;
    let seen = Csum::from_bytes([2; 32]);
    let dropped = name(&rt, alloc, b"main-a")?;
    book.make_room(&dropped)?;
    book.change(&Event::DropRef {
        name: dropped,
        seen,
    });
    let rows = book.rows()?;
    assert!(&rt; rows.len() == 2);
    assert!(&rt; rows[0].0.as_slice() == b"main".as_slice());
    assert!(&rt; rows[1].0.as_slice() == b"other".as_slice());
    Ok(())
}
