//! A new file gets its name once it is whole.

use std::alloc::Global;
use std::fs::{Files, OpenFile, OpenOptions};
use std::io::ErrorKind;
use std::path::{Path, PathBuf};
use std::{fs, io};

/// What a new file is called while it is made, before a number.
const TEMPORARY: &str = ".exsm-new-";

/// How many names are tried for a new file.
const NAMES_MOST: u32 = 1_000;

/// How many links are followed from the name of a volume, as many as Linux follows.
const LINKS_MOST: u32 = 40;

/// A new file's two names: the one that it is made under, as long as it has that, and the one that it is to get. Where this value is let go, the
/// first one is removed.
pub struct Naming<F: Drop, R: Files + Drop> {
    files: R,
    folder: F,
    temporary: Option<PathBuf>,
    name: PathBuf,
}

impl<F: Drop, R: Files + Drop> Drop for Naming<F, R> {
    fn drop(self) {
        let Naming {
            files,
            folder,
            temporary,
            name,
        } = self;
        if let Some(temporary) = temporary {
            let _ = fs::remove_file(&files, temporary.as_str());
        }
        drop((folder, name));
    }
}

impl<F: OpenFile + Drop, R: Files<File = F> + Drop> Naming<F, R> {
    /// Makes an empty file in the folder of `name`, or of what a link of that name leads to, under a name of its own, and opens it to be read and
    /// written. The folder is opened first, so one that can't be opened makes no file.
    pub fn make(alloc: Global, files: R, name: &str) -> io::Result<(Naming<F, R>, F)> {
        let name = end_of_links(alloc, &files, name)?;
        let folder = open_folder(&files, name.as_path())?;
        let (temporary, file) = make_beside(alloc, &files, name.as_path())?;
        let naming = Naming {
            files,
            folder,
            temporary: Some(temporary),
            name,
        };
        Ok((naming, file))
    }

    /// Gives the file its name, where no other file has it, and settles that in the folder. Where that fails, the file hasn't the name.
    pub fn settle(&mut self) -> io::Result<()> {
        self.name_it()?;
        if let Err(cause) = self.folder.sync_all() {
            let _ = fs::remove_file(&self.files, self.name.as_str());
            return Err(io::Error::new(
                cause.kind(),
                "its folder can't be synced, so a new file there could be lost",
            ));
        }
        Ok(())
    }

    // A link is refused where the name is taken. Where the folder knows no links, the file is renamed, over one that this run made.
    fn name_it(&mut self) -> io::Result<()> {
        let Some(temporary) = &self.temporary else {
            return Err(io::Error::other("its name was given up"));
        };
        let (temporary, name) = (temporary.as_str(), self.name.as_str());
        match fs::hard_link(&self.files, temporary, name) {
            Err(cause) if cause.kind() != ErrorKind::AlreadyExists => {
                rename_over_own(&self.files, temporary, name)?;
                self.temporary = None;
                Ok(())
            }
            linked => linked,
        }
    }
}

// Renames a file to a name that no other file has: the name is taken first, by an empty file that is made for it.
fn rename_over_own<R: Files>(files: &R, temporary: &str, name: &str) -> io::Result<()> {
    let own = OpenOptions::new()
        .write(true)
        .create_new(true)
        .open(files, name)?;
    drop(own);
    if let Err(cause) = fs::rename(files, temporary, name) {
        let _ = fs::remove_file(files, name);
        return Err(cause);
    }
    Ok(())
}

// An empty file beside the one of the name, under a name that no file has and that isn't that one, and what it is called.
fn make_beside<R: Files>(
    alloc: Global,
    files: &R,
    name: Path<'_>,
) -> io::Result<(PathBuf, R::File)> {
    for number in 0..NAMES_MOST {
        let temporary = format!(in alloc; "{TEMPORARY}{number}")?;
        if name.file_name() == Some(temporary.as_str()) {
            continue;
        }
        let temporary = name.with_file_name(alloc, temporary.as_str())?;
        let made = OpenOptions::new()
            .read(true)
            .write(true)
            .create_new(true)
            .open(files, temporary.as_str());
        match made {
            Ok(file) => return Ok((temporary, file)),
            Err(cause) if cause.kind() == ErrorKind::AlreadyExists => {}
            Err(cause) => return Err(cause),
        }
    }
    Err(io::Error::other("its folder has too many unfinished files"))
}

// The name that the links lead to which begin at a name. The last of them leads to no file.
fn end_of_links<R: Files>(alloc: Global, files: &R, name: &str) -> io::Result<PathBuf> {
    let mut end = PathBuf::from_str(alloc, name)?;
    for _ in 0..LINKS_MOST {
        let target = match files.read_link(alloc, end.as_str()) {
            Ok(target) => target,
            Err(cause) if cause.kind() == ErrorKind::OutOfMemory => return Err(cause),
            Err(_) => return Ok(end),
        };
        end = end.with_file_name(alloc, target.as_str())?;
    }
    Err(io::Error::other("too many links lead on from it"))
}

// The folder that the path is in, to be synced.
fn open_folder<F: OpenFile + Drop, R: Files<File = F>>(files: &R, path: Path<'_>) -> io::Result<F> {
    let folder = match path.parent() {
        Some(folder) if !folder.as_str().is_empty() => folder,
        Some(_) => Path::new("."),
        None => path,
    };
    match OpenOptions::new().read(true).open(files, folder) {
        Err(cause) if cause.kind() == ErrorKind::PermissionDenied => Err(io::Error::new(
            ErrorKind::PermissionDenied,
            "its folder can't be opened to be synced",
        )),
        opened => opened,
    }
}
