//! The folders of cases and their files.

use std::rt::Files;
use std::{fs, io};

/// A file: its name and its bytes.
pub(crate) type File = (String, Vec<u8>);

/// The names of the folders in a folder, sorted.
///
/// # Errors
///
/// Those of the system.
pub(crate) fn folders_in<R: Files + AllocGlobal + Clone + Drop>(
    rt: &R,
    path: &str,
) -> io::Result<Vec<String>> {
    let mut names = Vec::new(rt.alloc());
    for entry in fs::read_dir(rt, path)? {
        let entry = entry?;
        if entry.file_type()?.is_dir() {
            names.push(String::from_str(rt.alloc(), entry.file_name())?)?;
        }
    }
    names.sort()?;
    Ok(names)
}

/// The names in a folder, sorted.
fn names_in<R: Files + AllocGlobal + Clone + Drop>(rt: &R, path: &str) -> io::Result<Vec<String>> {
    let mut names = Vec::new(rt.alloc());
    for entry in fs::read_dir(rt, path)? {
        names.push(String::from_str(rt.alloc(), entry?.file_name())?)?;
    }
    names.sort()?;
    Ok(names)
}

/// The files of a folder, sorted by their names.
///
/// # Errors
///
/// Those of the system.
pub(crate) fn files_in<R: Files + AllocGlobal + Clone + Drop>(
    rt: &R,
    folder: &str,
) -> io::Result<Vec<File>> {
    let mut files = Vec::new(rt.alloc());
    for name in names_in(rt, folder)? {
        let path = format!(in rt.alloc(); "{folder}/{name}")?;
        let bytes = fs::read(rt, path.as_str())?;
        files.push((name, bytes))?;
    }
    Ok(files)
}

/// The bytes of the file of this name, where there is one.
pub(crate) fn content<'f>(files: &'f [File], name: &str) -> Option<&'f [u8]> {
    for file in files {
        if file.0.as_str() == name {
            return Some(file.1.as_slice());
        }
    }
    None
}
