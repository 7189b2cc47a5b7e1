//! What words of the lines that both programs read stand for: kinds and octets.
//!
//! docs/RULES.md, "Session scripts of `bench`" and "Vectors", has the rules.
#![tactic(auto)]

ghost use Rattle.std.specs.Prelude.{◌≡◌, true, IfOk, Err, None, Some};
ghost use Rattle.words.specs.Words.{has_digits, kind_named, octets_told};
ghost use Rattle.words.specs.declared.Unread.TheVariants.{Memory, Unknown};

use hex::FromHexError;
use std::alloc::{AllocError, Global};
use std::str::FromStr;

/// The kind of a sensor.
#[derive(Clone, Copy, PartialEq, Eq, Debug)]
pub enum KindName {
    /// IntegerT16, `int16`.
    Int16,
    /// IntegerT32, `int32`.
    Int32,
    /// Float32T, `float32`.
    Float32,
}

/// Why a word is not read.
#[derive(Clone, Copy, PartialEq, Eq, Debug)]
pub enum Unread {
    /// It stands for nothing.
    Unknown,
    /// There was no memory for what it stands for.
    Memory,
}

impl From<AllocError> for Unread {
    ghost from_gives = { λ error unread. unread ≡ Memory };

    fn from(_: AllocError) -> Unread {
        Unread::Memory
    }
}

/// A kind by its word; any other word is `Unread::Unknown`.
impl FromStr for KindName {
    type Err = Unread;

    ghost from_str_gives = { λ word result. result ≡ kind_named word };

    fn from_str(s: &str) -> Result<KindName, Unread> {
        match s {
            "int16" => Ok(KindName::Int16),
            "int32" => Ok(KindName::Int32),
            "float32" => Ok(KindName::Float32),
            _ => Err(Unread::Unknown),
        }
    }
}

/// The octets of a word: pairs of hexadecimal digits in either case, with nothing between them, as `03E8` of 03 E8; `-`
/// stands for none. Any other word is `Unread::Unknown`, the empty one too.
pub fn octets(heap: Global, word: &str) -> Result<Vec<u8>, Unread>
    ensures told { IfOk result (λ v. octets_told word.now ≡ Some v.items) }
    ensures unknown { result ≡ Err Unknown → octets_told word.now ≡ None }
    ensures memory { result ≡ Err Memory → has_digits word.now ≡ true }
{
    match word {
        "-" => Ok(Vec::new(heap)),
        "" => Err(Unread::Unknown),
        _ => hex::decode(heap, word).map_err(|error| match error {
            FromHexError::OutOfMemory => Unread::Memory,
            _ => Unread::Unknown,
        }),
    }
}
