// SPDX-License-Identifier: MIT
//! How the number of a name is found in a table of names.
ghost use Rattle.std.specs.Prelude.{◌≡◌, ◌<◌, ◌^◌, length};
ghost use Rattle.po_classic_units.specs.Names.{number_of_name, texts_of};

/// Returns the number of the first name that is this word, counted from 0, or the number of names if none is.
pub(crate) fn number_of_name(names: &[&str], word: &[u8]) -> u16
    requires { length names.now < 2 ^ 16 }
    ensures { result ≡ number_of_name (texts_of names.now) word.now }
{
    let mut number = 0;
    for name in names {
        if name.as_bytes() == word {
            return number;
        }
        number += 1;
    }
    number
}
