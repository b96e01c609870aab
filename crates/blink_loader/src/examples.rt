//! Worked CSV texts, as facts that compute.

ghost use Rattle.blink_loader.specs.Examples.{RangesCounted, TextsLoaded, TextsRead};

/// Texts as records: quotes, empty lines, an empty field, the ends of lines, a byte order mark.
#[tactic(auto, using(crate::specs::Examples::texts_read_lem))]
pub fn texts_read()
    ensures { TextsRead }
{}

/// Records within bounds, and the first refusal of each kind.
#[tactic(auto, using(crate::specs::Examples::ranges_counted_lem))]
pub fn ranges_counted()
    ensures { RangesCounted }
{}

/// Texts as rows, and the first refusal of each kind.
#[tactic(auto, using(crate::specs::Examples::texts_loaded_lem))]
pub fn texts_loaded()
    ensures { TextsLoaded }
{}
