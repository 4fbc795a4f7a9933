//! The files of a case.
use crate::fault::Fault;
use std::alloc::Global;

/// A file of a case: its name and its bytes.
#[derive(Clone, Drop)]
pub(crate) struct CaseFile {
    pub(crate) name: String,
    pub(crate) content: Vec<u8>,
}

impl CaseFile {
    /// Makes a file of this name and content.
    pub(crate) fn new(alloc: Global, name: &str, content: Vec<u8>) -> Result<Self, Fault> {
        let name = String::from_str(alloc, name)?;
        Ok(CaseFile { name, content })
    }
}

/// Removes the file of a name, if there is one.
pub(crate) fn remove_file(files: &mut Vec<CaseFile>, name: &str) {
    files.retain(|file| file.name.as_str() != name);
}
