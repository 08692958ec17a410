//! Names are numbers, of a type of their own for each class of name.

/// A bound name, by the place of its spelling among the script's names, from 0.
#[derive(Clone, Copy, PartialEq, Eq, PartialOrd, Ord, Hash)]
pub struct Name(pub u32);

/// A datatype, by its place among the script's datatypes, from 0.
#[derive(Clone, Copy, PartialEq, Eq, PartialOrd, Ord, Hash)]
pub struct DatatypeId(pub u32);

/// A nametype, by its place among the script's nametypes, from 0.
#[derive(Clone, Copy, PartialEq, Eq, PartialOrd, Ord, Hash)]
pub struct NametypeId(pub u32);
