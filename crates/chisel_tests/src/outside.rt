//! A real file is read whole, or not at all.
use chisel_outside::{Fetched, HostShelf, Shelf};
use std::fs;
use std::test::Fail;

fn shown(fetched: &Fetched) -> &[u8] {
    match fetched {
        Fetched::Whole(bytes) => bytes.as_slice(),
        Fetched::Longer => b"(longer)",
        Fetched::Failed => b"(failed)",
        Fetched::Memory => b"(memory)",
    }
}

#[test]
fn fetches_from_the_system(rt: HostRuntime) -> Result<(), Fail> {
    let alloc = rt.alloc();
    let name = "chisel_outside.fetched";
    fs::write(&rt, name, "text")?;
    let mut shelf = HostShelf::new(&rt, alloc);
    for (name, limit, want) in [
        (name, 4, "text"),
        (name, 3, "(longer)"),
        ("chisel_outside.missing", 4, "(failed)"),
    ] {
        let fetched = shelf.fetch(alloc, name, limit);
        assert_eq!(rt; shown(&fetched), want.as_bytes());
    }
    fs::remove_file(&rt, name)?;
    Ok(())
}
