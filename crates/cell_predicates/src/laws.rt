//! Laws of texts with a prefix.

ghost use Rattle.cell_predicates.specs.Prefixes.{PrefixIsRange};

/// A good text begins with a text exactly where it lies from it up to, but without, it and 64 times the last character.
pub fn prefix_is_range()
    ensures { PrefixIsRange }
{}
