//! Which type a name means inside a namespace.
mod innermost_types;
mod maps;
mod named_types;
mod path_tree;
mod scopes;

pub(crate) use path_tree::PathTree;
pub(crate) use scopes::Scopes;
