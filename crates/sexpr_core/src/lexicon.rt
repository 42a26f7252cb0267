ghost use Rattle.std.specs.Prelude.{◌≡◌, ◌++◌, ◌≤◌, ◌↔◌, IsTrue, length, drop, not};
ghost use Rattle.std.specs.List.{list_all};
ghost use Rattle.sexpr_core.specs.Lexicon.{is_blank, is_line_end, is_digit, is_symbol_byte, is_allowed, is_quoted_byte, EndsBefore, IsNumeral, IsSimpleSymbol};

pub(crate) fn is_blank(byte: u8) -> bool
    ensures { result ≡ is_blank byte }
{
    matches!(byte, b'\t' | b'\n' | b'\r' | b' ')
}

/// Whether the byte ends a comment.
pub(crate) fn is_line_end(byte: u8) -> bool
    ensures { result ≡ is_line_end byte }
{
    matches!(byte, b'\n' | b'\r')
}

/// Whether the byte may stand in a quoted symbol or a string.
pub(crate) fn is_allowed(byte: u8) -> bool
    ensures { result ≡ is_allowed byte }
{
    is_blank(byte) || matches!(byte, 32..=126 | 128..=255)
}

/// Whether the byte may stand in a quoted symbol.
pub(crate) fn is_quoted_byte(byte: u8) -> bool
    ensures { result ≡ is_quoted_byte byte }
{
    is_allowed(byte) && byte != b'|' && byte != b'\\'
}
