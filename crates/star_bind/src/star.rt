// The factors of a condition, and the star form.
pub(crate) mod condition_tests;
pub(crate) mod factors;
pub(crate) mod filters;
pub(crate) mod star_form;
pub(crate) mod ties;
