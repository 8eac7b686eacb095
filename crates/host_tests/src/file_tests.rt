use host_io::HostFiles;
use io_core::{FileFault, Files};
use std::test::Fail;
use std::{env, fs, process};

#[test]
fn host_files_hold_what_was_appended(rt: HostRuntime) -> Result<(), Fail> {
    let alloc = rt.alloc();
    let folder = env::temp_dir(&rt)?;
    let number = process::id(rt.process());
    let path = format!(in alloc; "{}/host_io-files-{number}.json", folder.as_str())?;
    let name = path.as_str();
    let mut files = HostFiles::new(rt.clone()?);
    let mut buf = [0u8; 8];
    assert!(rt; files.read_at(name, 0, &mut buf) == Err(FileFault::Missing));

    assert!(rt; files.create(name) == Ok(()));
    assert!(rt; files.append(name, b"borders") == Ok(7));
    assert!(rt; files.read_at(name, 2, &mut buf) == Ok(5));
    assert_eq!(rt; buf.as_slice(), b"rders\0\0\0".as_slice());
    assert!(rt; files.read_at(name, 7, &mut buf) == Ok(0));

    assert!(rt; files.create(name) == Ok(()));
    assert!(rt; files.read_at(name, 0, &mut buf) == Ok(0));
    fs::remove_file(&rt, name)?;
    Ok(())
}
