//! Which file has a name that is near to one that can't be opened, and which programs a folder has.

use std::alloc::{AllocError, Global};
use std::fs;
use std::fs::ReadDir;
use strsim::osa_distance;

/// In how many letters two names differ at least if they aren't near.
const FAR: usize = 3;

/// Returns the name up to its last dot, or the whole name if it has none.
fn stem_of(name: &str) -> &str {
    name.rsplit_once('.').map_or(name, |(stem, _)| stem)
}

/// Returns whether a file's name ends as a program's does: `.asm`, `.txt`, `.image` or `.img`.
pub fn is_of_program(name: &str) -> bool {
    name.ends_with(".asm")
        || name.ends_with(".txt")
        || name.ends_with(".image")
        || name.ends_with(".img")
}

/// The nearest name so far, and in how many letters it differs: before the extension, and in all. `of_all` is larger if one
/// name is a program's and the other isn't.
#[derive(Drop)]
struct Nearest {
    name: Option<String>,
    of_stem: usize,
    of_all: usize,
}

impl Nearest {
    /// Keeps `given` if it is nearer to `name` than the name kept so far, or as near and before that in alphabetical order.
    fn take(&mut self, alloc: Global, given: &str, name: &str) -> Result<(), AllocError> {
        let of_stem = osa_distance(alloc, stem_of(given), stem_of(name))?;
        let letters = osa_distance(alloc, given, name)?;
        let of_all = if is_of_program(given) == is_of_program(name) {
            letters
        } else {
            letters.saturating_add(given.len())
        };
        let is_before = self
            .name
            .as_ref()
            .is_some_and(|found| given < found.as_str());
        let is_nearer = of_all < self.of_all || of_all == self.of_all && is_before;
        if given != name && (of_stem < self.of_stem || of_stem == self.of_stem && is_nearer) {
            self.of_stem = of_stem;
            self.of_all = of_all;
            self.name = String::from_str(alloc, given).ok();
        }
        Ok(())
    }

    /// Keeps the nearest to `name` of a folder's entries. Returns None if they can't be read, or there is no memory.
    fn take_entries(&mut self, alloc: Global, entries: ReadDir, name: &str) -> Option<()> {
        for entry in entries {
            self.take(alloc, entry.ok()?.file_name(), name).ok()?;
        }
        Some(())
    }
}

/// Returns the name in a folder nearest to `name`. None if none is near, the folder can't be read, or there is no memory.
fn nearest_in(rt: &HostRuntime, folder: &str, name: &str) -> Option<String> {
    let mut nearest = Nearest {
        name: None,
        // In a near name fewer letters differ than this.
        of_stem: FAR.min(stem_of(name).len()),
        of_all: 0,
    };
    nearest.take_entries(rt.alloc(), fs::read_dir(rt, folder).ok()?, name)?;
    nearest.name
}

/// Returns the file that a path was meant as: PATH.asm, or the one of its folder with the nearest name. None if none is near.
pub fn near_file(rt: &HostRuntime, path: &str) -> Option<String> {
    if let Ok(near) = format!(in rt.alloc(); "{path}.asm") {
        if fs::metadata(rt, near.as_str()).is_ok() {
            return Some(near);
        }
    }
    let length = path.rfind('/').map_or(0, |slash| slash.saturating_add(1));
    let folder = path.get(..length).unwrap_or("");
    let name = path.get(length..).unwrap_or(path);
    let near = nearest_in(rt, if folder.is_empty() { "." } else { folder }, name)?;
    let near = near.as_str();
    format!(in rt.alloc(); "{folder}{near}").ok()
}

/// Returns the names of a folder's programs in alphabetical order. None if it can't be read, or there is no memory.
pub fn programs_in(rt: &HostRuntime, folder: &str) -> Option<Vec<String>> {
    let mut names = Vec::new(rt.alloc());
    for entry in fs::read_dir(rt, folder).ok()? {
        let entry = entry.ok()?;
        if is_of_program(entry.file_name()) {
            names
                .push(String::from_str(rt.alloc(), entry.file_name()).ok()?)
                .ok()?;
        }
    }
    names.sort_unstable();
    Some(names)
}
