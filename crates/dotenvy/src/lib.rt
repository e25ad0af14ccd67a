//! Reads environment files: names and their values, as services and start scripts keep them.
#![tactic(auto)]

mod files;
mod find;
mod first_use;
pub mod laws;

pub use dotenvy_base::environment::{Environment, Pairs, Vars, is_name};
pub use dotenvy_base::errors::{Error, Result, VarError};
pub use dotenvy_base::source::{Bytes, Plain, Sink, Source};
pub use dotenvy_format::dialect::Dialect;
pub use dotenvy_items::iter::{
    Items, Iter, NumberedItems, from_read, from_read_iter, from_read_override,
};
pub use dotenvy_items::keys::is_key;
pub use dotenvy_items::written::{list, list_with, write_pair};
pub use files::{
    dotenv, dotenv_iter, dotenv_override, from_filename, from_filename_iter,
    from_filename_override, from_filename_with, from_path, from_path_iter, from_path_override,
};
pub use find::{find_filename, open_filename};
pub use first_use::{var, vars};

/// The search for a file, over what the caller sees at a path.
pub mod search {
    pub use dotenvy_base::search::{Look, find};
}
