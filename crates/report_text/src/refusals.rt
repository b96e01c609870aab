// Refusals as printed lines.
ghost use Rattle.std.specs.Prelude.{◌≡◌, [], ◌∷◌, codes, IfOk};
ghost use Rattle.std.specs.Fmt.{decimal};
ghost use Rattle.report_text.specs.Texts.{line_text, refusal_bytes};

use crate::words::line_text;
use blink_base::{List, Refusal, Word};
use itoa::Buffer;
use std::alloc::{AllocError, Global};

// The line of a refusal that these words say.
fn refused(alloc: Global, why: &str) -> Result<List<u8>, AllocError>
    ensures { IfOk result (λ text. text ≡ line_text (codes "refused:" ∷ why.now ∷ [])) }
{
    line_text(alloc, b"refused:", &[why.as_bytes()])
}

// The line of a refusal of a name.
fn refused_name(alloc: Global, why: &str, name: &Word) -> Result<List<u8>, AllocError>
    ensures { IfOk result (λ text. text ≡ line_text (codes "refused:" ∷ why.now ∷ name.now ∷ [])) }
{
    line_text(
        alloc,
        b"refused:",
        &[why.as_bytes(), name.as_str().as_bytes()],
    )
}

// The line of a refusal of a record.
fn refused_at(alloc: Global, why: &str, at: u64) -> Result<List<u8>, AllocError>
    ensures { IfOk result (λ text. text ≡ line_text (codes "refused:" ∷ why.now ∷ decimal at ∷ [])) }
{
    let mut at_buffer = Buffer::new();
    let at = at_buffer.format(at).as_bytes();
    line_text(alloc, b"refused:", &[why.as_bytes(), at])
}

// The line of a refusal of a field of a record.
fn refused_field(alloc: Global, why: &str, at: u64, field: u32) -> Result<List<u8>, AllocError>
    ensures { IfOk result (λ text. text ≡ line_text (codes "refused:" ∷ why.now ∷ decimal at ∷ decimal field ∷ [])) }
{
    let mut at_buffer = Buffer::new();
    let mut field_buffer = Buffer::new();
    let at = at_buffer.format(at).as_bytes();
    let field = field_buffer.format(field).as_bytes();
    line_text(alloc, b"refused:", &[why.as_bytes(), at, field])
}

/// The line of a refusal: `refused:`, its words, and the name or the numbers that it tells. Source: this project's own.
pub fn refusal_text(alloc: Global, refusal: &Refusal) -> Result<List<u8>, AllocError>
    ensures { IfOk result (λ text. text ≡ refusal_bytes refusal.now) }
{
    match refusal {
        Refusal::Syntax => refused(alloc, "syntax"),
        Refusal::TooDeep => refused(alloc, "too deep"),
        Refusal::NumberTooLong => refused(alloc, "number too long"),
        Refusal::UnknownTable(name) => refused_name(alloc, "unknown table", name),
        Refusal::TableExists(name) => refused_name(alloc, "table exists", name),
        Refusal::BadColumns => refused(alloc, "bad columns"),
        Refusal::TooManyTables => refused(alloc, "too many tables"),
        Refusal::UnknownColumn(name) => refused_name(alloc, "unknown column", name),
        Refusal::AmbiguousColumn(name) => refused_name(alloc, "ambiguous column", name),
        Refusal::WrongKind => refused(alloc, "wrong kind"),
        Refusal::NotStar => refused(alloc, "not a star query"),
        Refusal::NotGrouped => refused(alloc, "not grouped"),
        Refusal::TooManyConjunctions => refused(alloc, "too many conjunctions"),
        Refusal::NoFile => refused(alloc, "no file"),
        Refusal::FileTooLong => refused(alloc, "file too long"),
        Refusal::BadHeader => refused(alloc, "header"),
        Refusal::Arity { at } => refused_at(alloc, "arity", *at),
        Refusal::BadValue { at, field } => refused_field(alloc, "bad value", *at, *field),
        Refusal::DuplicateKey { at } => refused_at(alloc, "duplicate key", *at),
        Refusal::TooManyRows => refused(alloc, "too many rows"),
        Refusal::NoSpace => refused(alloc, "no space"),
        Refusal::NotTableFile => refused(alloc, "not a table file"),
        Refusal::NotBuilt => refused(alloc, "not built"),
    }
}
