//! The names of a program: what each identifier stands for, or the first rule of names that is broken, with its place.
#![tactic(auto)]

mod files;
mod refusals;
mod resolving;

pub use files::SourceFile;
pub use name_links::Links;
pub use refusals::NameRefusal;
pub use resolving::{Named, resolve};
pub use std::alloc::AllocError as Starved;
