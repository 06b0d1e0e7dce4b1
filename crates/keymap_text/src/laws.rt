//! Laws of the definitions. No function here does anything.
ghost use Rattle.std.specs.Prelude.{◌≡◌, ℕ, ◌<◌, List, ◌∷◌, ◌++◌, ◌+◌, true, false, length};
ghost use Rattle.std.specs.Prelude.{slice_index_or, map, Ok, Err, Some, ◌⊎◌};
ghost use Rattle.keymap_text.specs.Lexical.{TokenValue, first, tokens_after, front_of, Found, Skipped, separates};
ghost use Rattle.keymap_text.specs.Alone.{StandsAlone};
ghost use Rattle.keymap_text.specs.Types.{TokenKind as TokenKindValue};
ghost use Rattle.keymap_text.specs.Types.{TextFault as TextFaultValue, TextFaultKind as Kind};
ghost use Rattle.keymap_text.specs.Quoted.{IsQuoted, BeginsQuoted, IsUnfinished, IsReason, quoted_token};
ghost use Rattle.keymap_text.specs.Meaning.{Spells, Fault, Early, item_of, place_after, tokens, ending, IsSameToken};
ghost use Rattle.keymap_core.specs.Maps.{MapValue};
ghost use Rattle.keymap_text.specs.Rows.{Definition, IsRow};
ghost use Rattle.keymap_core.specs.Bounds.{IsMap};
ghost use Rattle.keymap_text.specs.Printed.{printed};
ghost use Rattle.keymap_text.specs.Definitions.{IsDefinition, definition_words};
ghost use Rattle.keymap_text.specs.Places.{RowPlace, AtDefinition, may_end};
ghost use Rattle.keymap_text.specs.Meaning.{is_settled, is_end_inside};

/// A quoted character is an apostrophe, one character, and an apostrophe. The character is the UTF-8 of one other than
/// LF, or one byte from 0x80 on. It is found exactly if such bytes stand in front; it is unfinished, a fault at the end
/// of the bytes, exactly if all bytes from the apostrophe on are the beginning of one; and it is refused else.
pub fn quoted_characters()
    ensures found { (q c : ℕ) (bytes more : List ℕ) → IsQuoted c bytes
        → first (tokens_after 0 q (bytes ++ more)) ≡ Ok (Some (quoted_token q c bytes more)) }
    ensures unfinished { (q : ℕ) (bytes : List ℕ) → 0 < length bytes → IsUnfinished bytes
        → first (tokens_after 0 q bytes) ≡ Err (Kind.EndInside, q + length bytes) }
    ensures refused { (q : ℕ) (rest : List ℕ) → ¬ BeginsQuoted (39 ∷ rest) → ¬ IsUnfinished (39 ∷ rest)
        → first (tokens_after 0 q (39 ∷ rest)) ≡ Err (Kind.BadLiteral, q) }
    ensures only_then { (q : ℕ) (rest : List ℕ) → IsReason (39 ∷ rest) (first (tokens_after 0 q (39 ∷ rest))) }
{}

/// What is found in front of some bytes is the same token wherever its bytes stand before a blank or a line's end, and
/// has no line's end in it. Only blanks and comments are passed over.
pub fn tokens_stand_alone()
    ensures found { (c n : ℕ) (kind : TokenKindValue) (bytes : List ℕ) → front_of c bytes ≡ Found kind n
        → StandsAlone kind c n bytes }
    ensures skipped { (c n : ℕ) (bytes : List ℕ) → front_of c bytes ≡ Skipped n → separates c ≡ true }
{}

/// The places accept tokens up to a place where a text may end exactly if these are a row of definitions.
pub fn rows_are_accepted()
    ensures row { (ts : List TokenValue) (p : RowPlace) → place_after AtDefinition ts ≡ Ok p → may_end p ≡ true
        → (ds : List Definition) × IsRow (map item_of ts) ds }
    ensures accepted { (ts : List TokenValue) (ds : List Definition) → IsRow (map item_of ts) ds → (p : RowPlace)
        × (place_after AtDefinition ts ≡ Ok p) × (may_end p ≡ true) }
{}

/// A text spells one map, or has one fault.
pub fn one_meaning()
    ensures one_map { (text : List ℕ) (m n : MapValue) → Spells text m → Spells text n → m ≡ n }
    ensures one_fault { (text : List ℕ) (f g : TextFaultValue) → Fault text f → Fault text g → (f.kind ≡ g.kind)
        × (f.offset ≡ g.offset) × (f.line ≡ g.line) }
    ensures not_both { (text : List ℕ) (m : MapValue) (f : TextFaultValue) → Spells text m → Fault text f → ⊥ }
    ensures one_of_them { (text : List ℕ) → ((m : MapValue) × Spells text m) ⊎ ((f : TextFaultValue) × Fault text f) }
{}

/// An early fault of a text is the fault of every text that begins with it.
pub fn early_faults_stay()
    ensures { (text more : List ℕ) (f : TextFaultValue) → Early text f → Early (text ++ more) f }
{}

/// Each token of a text, but for a word of at most 32 bytes at its end, is one of every text that begins with it.
pub fn settled_tokens_stay()
    ensures { (text more : List ℕ) (i : ℕ) (d : TokenValue) → i < length (tokens text)
        → is_settled (slice_index_or (tokens text) i d) ≡ true → (i < length (tokens (text ++ more)))
        × IsSameToken (slice_index_or (tokens text) i d) (slice_index_or (tokens (text ++ more)) i d) }
{}

/// A place where no token stands, and not for want of bytes alone, is that of every text that begins with this one.
pub fn broken_tokens_stay()
    ensures { (text more : List ℕ) (f : Kind) (q : ℕ) → ending text ≡ Err (f, q) → is_end_inside f ≡ false
        → ending (text ++ more) ≡ Err (f, q) }
{}

/// The printed form of a map spells it, so reading it gives that map and no fault.
pub fn printed_form_spells()
    ensures spells { (m : MapValue) → IsMap m → Spells (printed m) m }
    ensures read_again { (m n : MapValue) → IsMap m → Spells (printed m) n → n ≡ m }
    ensures no_fault { (m : MapValue) (f : TextFaultValue) → IsMap m → Fault (printed m) f → ⊥ }
{}

/// The words of a printed line tell its definition: no other one of any map has the same words.
pub fn words_tell_definitions()
    ensures { (d e : Definition) → IsDefinition d → IsDefinition e → definition_words d ≡ definition_words e → d ≡ e }
{}
