//! Pairs of a name and a sort.
ghost use Rattle.std.specs.Prelude.{◌≡◌};
ghost use Rattle.name_core.specs.Names.{is_plain, is_sort};

use sig_core::is_word;
use syntax_core::Pair;

/// Whether the name is that of a sort.
pub(crate) fn is_sort(name: &[u8]) -> bool
    ensures { result ≡ is_sort name.now }
{
    is_word(name, b"Int") || is_word(name, b"Bool")
}

/// Whether the pair is of a sort.
pub fn is_plain(pair: &Pair) -> bool
    ensures { result ≡ is_plain pair.now }
{
    is_sort(pair.sort.bytes.as_slice())
}
