// The bytes of names.
ghost use Rattle.std.specs.Prelude.{◌≡◌};
ghost use Rattle.blink_base.specs.Identifiers.{begins_name, is_name_byte};

/// Whether a name can begin with the byte: a letter or `_`. Source: ISO/IEC 9075, in this project's own profile.
pub fn begins_name(byte: u8) -> bool
    ensures { result ≡ begins_name byte }
{
    byte.is_ascii_lowercase() || byte.is_ascii_uppercase() || byte == b'_'
}

/// Whether a name can have the byte behind its first: a letter, `_` or a digit. Source: ISO/IEC 9075, in this project's
/// own profile.
pub fn is_name_byte(byte: u8) -> bool
    ensures { result ≡ is_name_byte byte }
{
    begins_name(byte) || byte.is_ascii_digit()
}
