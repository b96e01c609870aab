//! The outside of the program: where its bytes come from, where they go, and where files are kept.
//!
//! [`Source`], [`Sink`] and [`Store`] are what the program asks of the outside. [`BytesIn`], [`BytesOut`] and [`Shelf`]
//! are the outside in memory; they tell their bytes, and fail exactly at the calls that they are told to fail at.
//! [`StdIn`] and [`StdOut`] stand over the streams of the system, and [`Folder`] over its files; they tell nothing.
//! [`read_all`] and [`write_all`] move all bytes of a source or of a piece.
#![tactic(auto)]

mod bytes_in;
mod bytes_out;
mod count;
mod failed;
mod fault_plan;
mod folder;
mod shelf;
mod sink;
mod source;
mod store;
mod streams;
mod whole;

pub use bytes_in::BytesIn;
pub use bytes_out::BytesOut;
pub use failed::Failed;
pub use folder::Folder;
pub use shelf::Shelf;
pub use sink::Sink;
pub use source::Source;
pub use store::{Found, Store, StoreError};
pub use streams::{StdIn, StdOut};
pub use whole::{ReadError, Taken, read_all, write_all};
