//! Laws of where definitions and their tokens stand. No function here does anything.
ghost use Rattle.std.specs.Prelude.{◌≡◌, ℕ, ◌<◌, List, [], ◌∷◌, ◌+◌, ◌*◌, length};
ghost use Rattle.std.specs.Prelude.{slice_index_or, map, take, drop, Ok, None, Some, All};
ghost use Rattle.keymap_text.specs.Lexical.{TokenValue, first};
ghost use Rattle.keymap_places.specs.Types.{Item as ItemValue, Value, Letter};
ghost use Rattle.keymap_places.specs.Types.{Placed as PlacedValue, Slot, Accent};
ghost use Rattle.keymap_places.specs.Types.{Entry as EntryValue, Cell as CellValue};
ghost use Rattle.keymap_text.specs.Meaning.{item_of, tokens};
ghost use Rattle.keymap_core.specs.Maps.{MapValue, undefined};
ghost use Rattle.keymap_text.specs.Rows.{Defines, KeyDefinition, AccentDefinition, ArePairs};
ghost use Rattle.keymap_text.specs.Items.{character, cell};
ghost use Rattle.keymap_core.specs.Accents.{AccentValue, blank};
ghost use Rattle.keymap_places.specs.Placed.{Row, AreRows, IsSpelledBy, IsPlaced, last_of, places_of};
ghost use Rattle.keymap_core.specs.Numbers.{column_count};
ghost use Rattle.keymap_places.specs.Same.{SameTokensSameDefinitions, TokensAreInOrder};

/// The tokens of a slot's definition are its number, its eight cells in order, and its lock letter; those of an
/// accent's are its name, its character, and four for each pair in order.
pub fn parts_of_definitions()
    ensures slot { (ts : List ItemValue) (slot : ℕ) (e : EntryValue) → Defines ts (KeyDefinition slot e)
        → length ts ≡ 10 }
    ensures cells { (ts : List ItemValue) (slot : ℕ) (e : EntryValue) → Defines ts (KeyDefinition slot e) → (column : ℕ)
        → column < column_count → (t : ItemValue) (c : CellValue)
        → cell (slice_index_or ts (column + 1) t) ≡ Ok (slice_index_or e.cells column c) }
    ensures lock { (ts : List ItemValue) (slot : ℕ) (e : EntryValue) → Defines ts (KeyDefinition slot e)
        → (t : ItemValue) → slice_index_or ts 9 t ≡ Value (Letter e.flag) }
    ensures accent { (ts : List ItemValue) (i : ℕ) (a : AccentValue) → Defines ts (AccentDefinition i a)
        → length ts ≡ 4 * length a.pairs + 2 }
    ensures character { (ts : List ItemValue) (i : ℕ) (a : AccentValue) → Defines ts (AccentDefinition i a)
        → (t : ItemValue) → character (slice_index_or ts 1 t) ≡ Ok a.own }
    ensures pairs { (ts : List ItemValue) (i : ℕ) (a : AccentValue) → Defines ts (AccentDefinition i a) → (j : ℕ)
        → j < length a.pairs → (p : ℕ × ℕ)
        → ArePairs (take 4 (drop (4 * j + 2) ts)) (slice_index_or a.pairs j p ∷ []) }
{}

/// The bytes of each token are those of the text at its place.
pub fn tokens_are_placed()
    ensures { (text : List ℕ) → All (IsPlaced text) (tokens text) }
{}

/// Each token of a text begins before those that follow it.
#[tactic(auto, using(crate::proofs::TokenPlaces::tokens_are_in_order))]
pub fn tokens_are_in_order()
    ensures { TokensAreInOrder }
{}

/// Of two texts with the same tokens, as many tokens stand before each definition of the one as before that of the
/// other.
#[tactic(auto, using(crate::proofs::SamePlaces::same_places))]
pub fn same_tokens_same_definitions()
    ensures { SameTokensSameDefinitions }
{}

/// Tokens are the rows of one list of rows at most.
pub fn one_list_of_rows()
    ensures { (ts : List TokenValue) (a b : List Row) → AreRows ts a → AreRows ts b → a ≡ b }
{}

/// The last definition of a slot or an accent is the one in force: its tokens define what the map has there. What no
/// definition defines, the map has undefined.
pub fn definitions_in_force()
    ensures slot { (text : List ℕ) (m : MapValue) (rows : List Row) → IsSpelledBy text m rows → (slot : ℕ)
        (p : PlacedValue) → last_of (Slot slot) (places_of rows) ≡ Some p
        → Defines (map item_of (take 10 (drop p.first (tokens text))))
        (KeyDefinition slot (slice_index_or m.entries slot undefined)) }
    ensures no_slot { (text : List ℕ) (m : MapValue) (rows : List Row) → IsSpelledBy text m rows → (slot : ℕ)
        → last_of (Slot slot) (places_of rows) ≡ None → slice_index_or m.entries slot undefined ≡ undefined }
    ensures accent { (text : List ℕ) (m : MapValue) (rows : List Row) → IsSpelledBy text m rows → (i : ℕ)
        (p : PlacedValue) → last_of (Accent i) (places_of rows) ≡ Some p
        → Defines (map item_of (take (4 * length (slice_index_or m.accents i blank).pairs + 2)
        (drop p.first (tokens text)))) (AccentDefinition i (slice_index_or m.accents i blank)) }
    ensures no_accent { (text : List ℕ) (m : MapValue) (rows : List Row) → IsSpelledBy text m rows → (i : ℕ)
        → last_of (Accent i) (places_of rows) ≡ None → slice_index_or m.accents i blank ≡ blank }
{}
