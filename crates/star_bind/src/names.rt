// What the names of a query mean, and the parts of the bound query that are names.
pub(crate) mod bound_names;
pub(crate) mod groups;
pub(crate) mod kinds;
pub(crate) mod name_checks;
pub(crate) mod printed_names;
pub(crate) mod scope;
