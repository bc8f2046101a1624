//! Calls of a folder that come too late, or that no command makes.
use super::*;

/// Whether a header is put without a fault, or is not put with this one.
fn puts(rt: &HostRuntime, text: &[u8], fault: &str) -> bool {
    match folder(rt, "first/set/dataset.idx") {
        Ok(mut bay) => {
            let put = bay.set_header(text).is_ok();
            put == fault.is_empty() && is_text(rt.alloc(), bay.last_fault(), fault)
        }
        Err(_) => false,
    }
}

/// Texts other than the one that stands: of its length, shorter, longer, and empty.
static OTHERS: [&[u8]; 4] = [b"late", b"tex", b"texts", b""];

#[test]
fn a_header_is_put_once(rt: HostRuntime) -> Result<(), Fail> {
    assert!(rt; puts(&rt, b"text", "") && puts(&rt, b"text", ""));
    let want = "first/set/dataset.idx: something stands there already";
    for &other in &OTHERS {
        assert!(rt; puts(&rt, other, want));
    }
    assert!(rt; fs::read(&rt, "first/set/dataset.idx")?.as_slice() == b"text".as_slice());
    assert!(rt; fs::metadata(&rt, "first/set/dataset.idx.part0").is_err());
    fs::remove_dir_all(&rt, "first")?;
    Ok(())
}

/// Whether a file of one byte of the step `t1` is made and sealed, and stands in this place then.
fn makes(bay: &mut FolderBay<HostRuntime>, path: &str) -> bool {
    let Ok(mut draft) = bay.create(path.as_bytes()) else {
        return false;
    };
    let is_taken = draft.append(&[1]).is_ok();
    match draft.seal() {
        Ok(leaf) => is_taken && (leaf.len(), leaf.path()) == (1, "made/t1/0.bin"),
        Err((draft, _)) => {
            bay.retire(draft);
            false
        }
    }
}

/// Files that are made one after another once the step `t1` was begun, and why they are not.
static FILES: [(&str, &str); 3] = [
    ("t1/0.bin", ""),
    (
        "t1/0.bin",
        "made/t1.part/*/0.bin: File exists (os error 17)",
    ),
    (
        "t10/0.bin",
        "made/t10/0.bin: the file is not in the step that was begun",
    ),
];

#[test]
fn a_file_is_made_once_and_in_the_step_that_was_begun(rt: HostRuntime) -> Result<(), Fail> {
    let mut bay = folder(&rt, "made/dataset.idx")?;
    assert!(rt; bay.begin_step(b"t1").is_ok());
    for &(path, fault) in &FILES {
        assert!(rt; makes(&mut bay, path) == fault.is_empty());
        assert!(rt; is_text(rt.alloc(), bay.last_fault(), fault));
    }
    // What was begun before is dropped, and then what is staged and not committed.
    assert!(rt; bay.begin_step(b"t1").is_ok());
    assert!(rt; count_in(&rt, "made/t1.part") == 1 && count_in(&rt, "made") == 2);
    assert!(rt; bay.begin_step(b"t2").is_ok());
    assert!(rt; count_in(&rt, "made/t2.part") == 1 && count_in(&rt, "made") == 2);
    drop(bay);
    assert!(rt; count_in(&rt, "made") == 0);
    fs::remove_dir_all(&rt, "made")?;
    Ok(())
}
