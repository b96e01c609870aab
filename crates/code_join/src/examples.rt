//! Worked keys, as facts that compute.

ghost use Rattle.code_join.specs.Examples.{KeysOfClass};

/// Keys, and what a class has of them.
pub fn keys_of_class()
    ensures { KeysOfClass }
{}
