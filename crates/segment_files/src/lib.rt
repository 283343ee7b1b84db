//! Relations over real files, in segments (`md.c`). [`FileHost`] opens one relation by its path, or
//! the files of a whole catalogue; a [`FileLane`] is a lane over what was opened together.
//!
//! Another program may change a file, so contracts know nothing of what these hold; they know which
//! calls failed. The code that calls the operating system is tested, not proved.
#![tactic(auto)]

mod catalog;
mod host;
mod lane;
mod opening;
mod shared;

pub use catalog::{CatalogFile, OpenedCatalog};
pub use host::FileHost;
pub use lane::FileLane;
