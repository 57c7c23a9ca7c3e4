//! The golden files of a folder.
use crate::runner::{BlockRunner, actual_file};
use std::alloc::Global;
use std::rt::Files;
use std::{fs, io};

/// The files in the current folder, sorted by name.
fn names<R: Files + AllocGlobal + Clone>(rt: &R) -> io::Result<Vec<String>> {
    let mut names = Vec::new(rt.alloc());
    for entry in fs::read_dir(rt, ".")? {
        names.push(String::from_str(rt.alloc(), entry?.file_name())?)?;
    }
    names.sort_unstable();
    Ok(names)
}

/// `NAME: holds` where each actual output is the expected one, else the whole file with the actual outputs.
fn compare<T: BlockRunner + Drop>(alloc: Global, name: &str, expected: &str) -> io::Result<String> {
    let actual = actual_file::<T>(alloc, expected)?;
    if actual.as_str() == expected {
        Ok(format!(in alloc; "{name}: holds\n")?)
    } else {
        Ok(actual)
    }
}

fn compare_file<T: BlockRunner + Drop, R: Files + Print + AllocGlobal + Clone>(
    rt: &R,
    name: &str,
) -> io::Result<()> {
    let expected = fs::read_to_string(rt, name)?;
    let report = compare::<T>(rt.alloc(), name, expected.as_str())?;
    print!(rt; "{report}")
}

/// Runs the cases of each golden file in the current folder, each file by a new runner. Prints for each file
/// `NAME: holds`, or the whole file with the actual outputs in place of the expected ones.
///
/// Errors: a file can't be read, standard output can't be written, or memory was refused.
pub fn compare_files<T: BlockRunner + Drop, R: Files + Print + AllocGlobal + Clone>(
    rt: &R,
) -> io::Result<()> {
    for name in &names(rt)? {
        compare_file::<T, R>(rt, name.as_str())?;
    }
    Ok(())
}
