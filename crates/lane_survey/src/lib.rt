//! A survey of a relation's lanes, before a manager is started over them: [`survey`].
#![tactic(auto)]

mod surveying;

pub use surveying::{ReadFault, survey};
