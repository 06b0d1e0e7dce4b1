//! Reading a text, whole or in pieces, as users see it. It answers the keymap or the fault of the whole text.
ghost use Rattle.std.specs.Prelude.{◌≡◌, ℕ, ◌+◌, ◌<◌, ◌^◌, ◌++◌, ◌≢◌, [], List, IfOk, length, MatchResult, Some, Err};
ghost use Rattle.keymap_text.specs.Meaning.{Means, Reads};
ghost use Rattle.keymap_text.specs.Standing.{StandsAfter, FedAfter};
ghost use Rattle.keymap_text.specs.Types.{TextFault as TextFaultValue};

use crate::fault::{TextError, TextFault};
use crate::reading::Reading;
use keymap_core::KeyMap;
use std::alloc::{AllocError, Global};
use std::marker::Model;

/// Reads a text that comes in pieces. It keeps the map, at most 32 bytes of an unfinished token and its place, never
/// the text, and allocates only the map. The bytes of an unfinished token are read again with each piece until it is
/// whole, so pieces of a few bytes cost several times as much a byte as long ones.
#[derive(Drop)]
pub struct MapReader {
    reading: Reading,
    fed: u64,
    fault: Option<TextFault>,
}

impl Model for MapReader {
    ghost use Rattle.keymap_text.specs.Progress.{Progress};

    ghost Value = { Progress };

    ghost use Rattle.keymap_text.specs.Inner.Fields.{progress, IsSound};

    ghost view = { progress };

    ghost invariant = { IsSound };
}

impl MapReader {
    /// A reader that stands at the beginning of a text, with the memory that its map ever needs.
    pub fn new(alloc: Global) -> Result<MapReader, AllocError>
        ensures { IfOk result (λ reader. StandsAfter reader []) }
    {
        let map = KeyMap::new(alloc)?;
        Ok(MapReader {
            reading: Reading::new(map),
            fed: 0,
            fault: None,
        })
    }

    /// How many bytes were taken without a fault.
    pub fn fed(&self) -> u64
        ensures { result ≡ self.now.fed }
    {
        self.fed
    }

    /// Takes the next piece: a fault exactly if the bytes so far have an early one, and then ever after.
    pub fn feed(&mut self, piece: &[u8]) -> Result<(), TextFault>
        requires room { self.old.fed + length piece.now < 2 ^ 63 }
        ensures stands { (b : List ℕ) → StandsAfter self.old b → FedAfter result self.new (b ++ piece.now) }
        ensures fed { MatchResult result (λ _. self.new.fed ≡ self.old.fed + length piece.now)
            (λ _. self.new.fed ≡ self.old.fed) }
        ensures stays { (f : TextFaultValue) → self.old.fault ≡ Some f → (result ≡ Err f) × (self.new.fault ≡ Some f) }
    {
        if let Some(f) = self.fault {
            return Err(f);
        }
        match self.reading.feed(piece) {
            Ok(()) => {
                self.fed += piece.len() as u64;
                Ok(())
            }
            Err(f) => {
                self.fault = Some(f);
                Err(f)
            }
        }
    }

    /// The text ends here: the map that it spells, or its fault.
    pub fn finish(self) -> Result<KeyMap, TextFault>
        ensures means { (b : List ℕ) → StandsAfter self b → Means result b }
        ensures stays { (f : TextFaultValue) → self.fault ≡ Some f → result ≡ Err f }
    {
        match self.fault {
            Some(f) => Err(f),
            None => self.reading.finish(),
        }
    }
}

/// The end of a text, its fault as an error.
pub(crate) fn conclude(reader: MapReader) -> Result<KeyMap, TextError>
    ensures { (b : List ℕ) → StandsAfter reader b → Reads result b × (result ≢ Err TextError.Memory) }
{
    match reader.finish() {
        Ok(map) => Ok(map),
        Err(fault) => Err(TextError::Fault(fault)),
    }
}

/// The map that a text spells, or its fault. The map is reserved before the text is looked at, and is all that is
/// allocated, however long the text is.
pub fn read_map(alloc: Global, text: &[u8]) -> Result<KeyMap, TextError>
    ensures { Reads result text.now }
{
    let Ok(mut reader) = MapReader::new(alloc) else {
        return Err(TextError::Memory);
    };
    if let Err(fault) = reader.feed(text) {
        return Err(TextError::Fault(fault));
    }
    conclude(reader)
}
