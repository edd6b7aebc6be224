//! The files of a region by name.

ghost use Rattle.std.specs.Prelude.{◌≡◌, IfOk};

use crate::opening::named::Named;
use cics_images::NamedImage;
use cics_ksds::{File, FileImage};
use cics_names::NoMemory;

/// The files of a region, each under its name, in the order of the names' bytes.
///
/// Contracts see them as a map from the names to the files, itself in that order.
///
/// Cost of a look-up: O(log files).
pub type Files = Named<File>;

/// The before image of one change of one file: its name, and what undoes the change of its record.
pub type FilesImage = NamedImage<FileImage>;

impl Named<File> {
    /// Returns files with the same names, definitions and contents.
    ///
    /// Errors: `NoMemory`. Cost: O(bytes copied).
    pub fn copy(&self) -> Result<Files, NoMemory>
        ensures { IfOk result (λ files. files ≡ self.now) }
    {
        let mut files = Named::new(self.alloc);
        for (name, original) in &self.rows {
            // No file is replaced: names differ. The result is dropped by a call, proved once.
            drop(files.insert(*name, original.copy()?)?);
        }
        Ok(files)
    }
}
