//! Files are read.
use city_model::OutOfMemory;
use city_serve::{ServeFault, read_file};
use std::alloc::Global;
use std::fs;
use std::fs::Files;
use std::test::Fail;

/// So many bytes, no two pieces of them alike.
fn text_of_length(alloc: Global, length: usize) -> Result<Vec<u8>, OutOfMemory> {
    let mut text = Vec::new(alloc);
    for at in 0..length {
        text.push((at % 251) as u8)?;
    }
    Ok(text)
}

/// Whether a file of so many bytes gives them.
fn gives_its_text<R: Files + AllocGlobal>(rt: &R, length: usize) -> Result<bool, Fail> {
    let text = text_of_length(rt.alloc(), length)?;
    fs::write(rt, "a_text", text.as_slice())?;
    let same = read_file(rt, "a_text").is_ok_and(|read| read.as_slice() == text.as_slice());
    fs::remove_file(rt, "a_text")?;
    Ok(same)
}

#[test]
fn a_file_gives_its_text_and_a_missing_one_cannot_be_read(rt: HostRuntime) -> Result<(), Fail> {
    for length in [0, 1, 65_535, 65_536, 65_537, 1_048_577, 5_000_000] {
        let same = gives_its_text(&rt, length)?;
        assert!(rt; same, "{length}");
    }
    assert!(rt; matches!(&read_file(&rt, "a_text"), Err(ServeFault::Read)));
    Ok(())
}
