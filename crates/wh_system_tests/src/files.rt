use std::alloc::{AllocError, Global};
use std::fs::OpenOptions;
use std::test::Fail;
use std::{fs, process};
use wh_system::{FileDisk, OpenError};
use wh_world::{Disk, Failed};

fn path_of(alloc: Global, process: process::Process, name: &str) -> Result<String, AllocError> {
    format!(in alloc; "/tmp/bokzarn-{}-{name}.db", process::id(process))
}

#[test]
fn a_file_keeps_what_is_written(rt: HostRuntime) -> Result<(), Fail> {
    let path = path_of(rt.alloc(), rt.process(), "keeps")?;
    let mut disk = FileDisk::open(&rt, path.as_str())?;
    assert_eq!(rt; disk.len(), Ok(0));
    assert_eq!(rt; disk.write_at(0, b"abcd"), Ok(()));
    assert_eq!(rt; disk.write_at(3, b"xy"), Ok(()));
    assert_eq!(rt; disk.sync(), Ok(()));
    drop(disk);
    let mut again = FileDisk::open(&rt, path.as_str())?;
    assert_eq!(rt; again.len(), Ok(5));
    let mut buf = [0u8; 3];
    assert_eq!(rt; again.read(2, &mut buf), Ok(()));
    assert_eq!(rt; buf, *b"cxy");
    assert_eq!(rt; again.fault_count(), 0);
    fs::remove_file(&rt, path.as_str())?;
    Ok(())
}

#[test]
fn a_file_is_opened_once_at_a_time(rt: HostRuntime) -> Result<(), Fail> {
    let path = path_of(rt.alloc(), rt.process(), "once")?;
    let disk = FileDisk::open(&rt, path.as_str())?;
    let second = FileDisk::open(&rt, path.as_str());
    assert!(rt; matches!(second, Err(OpenError::Locked)));
    drop(disk);
    assert!(rt; FileDisk::open(&rt, path.as_str()).is_ok());
    fs::remove_file(&rt, path.as_str())?;
    Ok(())
}

#[test]
fn a_file_in_no_folder_is_not_told_as_locked(rt: HostRuntime) {
    let opening = FileDisk::open(&rt, "/tmp/bokzarn-no-such-folder/file.db");
    assert!(rt; matches!(opening, Err(OpenError::System(_))));
}

#[test]
fn a_piece_of_ten_thousand_bytes_is_found_again(rt: HostRuntime) -> Result<(), Fail> {
    let path = path_of(rt.alloc(), rt.process(), "piece")?;
    let piece = [7u8; 10_000];
    let mut disk = FileDisk::open(&rt, path.as_str())?;
    assert_eq!(rt; disk.write_at(0, &piece), Ok(()));
    drop(disk);
    let mut again = FileDisk::open(&rt, path.as_str())?;
    assert_eq!(rt; again.len(), Ok(10_000));
    let mut found = [0u8; 10_000];
    assert_eq!(rt; again.read(0, &mut found), Ok(()));
    assert_eq!(rt; found, piece);
    fs::remove_file(&rt, path.as_str())?;
    Ok(())
}

#[test]
fn a_file_of_three_mebibytes_is_opened_again(rt: HostRuntime) -> Result<(), Fail> {
    let path = path_of(rt.alloc(), rt.process(), "large")?;
    let other = OpenOptions::new()
        .write(true)
        .create(true)
        .open(&rt, path.as_str())?;
    other.set_len(3 << 20)?;
    let mut disk = FileDisk::open(&rt, path.as_str())?;
    assert_eq!(rt; disk.len(), Ok(3 << 20));
    assert_eq!(rt; disk.write_at(3 << 20, b"z"), Ok(()));
    assert_eq!(rt; disk.len(), Ok((3 << 20) + 1));
    fs::remove_file(&rt, path.as_str())?;
    Ok(())
}

#[test]
fn a_write_fails_where_another_handle_changed_the_length(rt: HostRuntime) -> Result<(), Fail> {
    let path = path_of(rt.alloc(), rt.process(), "changed")?;
    for (name, length) in [("grown", 6), ("shortened", 3)] {
        let mut disk = FileDisk::open(&rt, path.as_str())?;
        assert_eq!(rt; disk.write_at(0, b"abcd"), Ok(()), "{name}");
        let other = OpenOptions::new().write(true).open(&rt, path.as_str())?;
        other.set_len(length)?;
        assert_eq!(rt; disk.write_at(2, b"z"), Err(Failed), "{name}");
        assert_eq!(rt; disk.fault_count(), 1, "{name}");
        fs::remove_file(&rt, path.as_str())?;
    }
    Ok(())
}
