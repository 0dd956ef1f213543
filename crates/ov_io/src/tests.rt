//! A test of the trusted edge, of which no clause tells content. What standard output takes is seen where the
//! program runs.
use crate::{FileShelf, Shelf, ShelfError};
use std::fs;
use std::test::Fail;

#[test]
fn real_files_are_read_within_the_limit(rt: HostRuntime) -> Result<(), Fail> {
    let long = vec![in rt.alloc(); b'x'; 10_000]?;
    fs::write(&rt, "long", long.as_slice())?;
    let mut shelf = FileShelf::new(&rt);
    let whole = shelf.read(rt.alloc(), "long", 10_000).ok();
    let cut = shelf.read(rt.alloc(), "long", 9_999).err();
    fs::remove_file(&rt, "long")?;
    assert_eq!(rt; whole.ok_or("all bytes")?.as_slice(), long.as_slice());
    assert_eq!(rt; cut.ok_or("an error")?, ShelfError::TooLong);
    for name in ["long", ".", ""] {
        let answer = shelf.read(rt.alloc(), name, 5).err().ok_or("an error")?;
        assert_eq!(rt; answer, ShelfError::Failed, "{name}");
    }
    Ok(())
}
