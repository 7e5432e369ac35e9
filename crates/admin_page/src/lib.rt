//! The page by which one looks at a service.
#![tactic(auto)]

mod page;

pub use crate::page::PAGE;
