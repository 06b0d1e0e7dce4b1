//! Laws of the definitions. No function here does anything.
ghost use Rattle.std.specs.Prelude.{◌≡◌, ℕ, ◌%◌, ◌<◌, List, Some, true, All, option_to_list};
ghost use Rattle.keymap_core.specs.Accents.{AccentValue};
ghost use Rattle.keymap_core.specs.Bounds.{IsCell};
ghost use Rattle.keymap_core.specs.Maps.{MapValue};
ghost use Rattle.keymap_core.specs.Numbers.{key_count};
ghost use Rattle.keymap_core.specs.declared.entry.Cell.{Cell as CellValue};
ghost use Rattle.keymap_core.specs.declared.entry.Entry.{Entry as EntryValue};
ghost use Rattle.keymap_check.specs.declared.finding.Finding.{Finding as FindingValue};
ghost use Rattle.keymap_text.specs.Printed.{slot_words, accent_words};
ghost use Rattle.keymap_draw.specs.Drawings.{Drawing};
ghost use Rattle.keymap_draw.specs.Drawn.{EachCellIsTold};
ghost use Rattle.keymap_draw.specs.Keys.{key_class, names_key, red};
ghost use Rattle.keymap_draw.specs.Keyboards.{BoardsAreKeyboards, EachKeyOnce, NoTwoOverlap, AllLieOnThePanel};
ghost use Rattle.keymap_draw.specs.Legends.{cell_legend};
ghost use Rattle.keymap_draw.specs.Marks.{MarkedAreChanged};
ghost use Rattle.keymap_draw.specs.Names.{LegendsAreNames, NoOthersAreNamed};
ghost use Rattle.keymap_draw.specs.Pictures.{IsPicture};
ghost use Rattle.keymap_draw.specs.Places.{IsClass};
ghost use Rattle.keymap_draw.specs.Shapes.{CapsAreOfTheirKeys};
ghost use Rattle.keymap_draw.specs.Sizes.{SizesAreOfTheStyle};
ghost use Rattle.keymap_draw.specs.WellFormed.{IsPlain, IsShown, IsSeen, IsWellFormed};

/// A cap has the class of the red ones exactly if one of the findings is of its key.
#[tactic(auto, using(crate::proofs::Red::red_named, crate::proofs::Red::named_red))]
pub fn red_caps_are_findings()
    ensures red { (fs : List FindingValue) (slot : ℕ) (e : EntryValue) → key_class fs slot e ≡ Some red
        → names_key fs (slot % key_count) ≡ true }
    ensures named { (fs : List FindingValue) (slot : ℕ) (e : EntryValue) → names_key fs (slot % key_count) ≡ true
        → key_class fs slot e ≡ Some red }
{}

/// In a picture of a change a key is marked exactly if its slot differs, in a cell or in the lock letter, and an accent
/// exactly if it does.
#[tactic(auto, using(crate::proofs::Marked::marked_are_changed))]
pub fn marked_are_changed()
    ensures { (m n : MapValue) → MarkedAreChanged m n }
{}

/// A cap tells each cell of the columns base, shift, alt and alt shift: by its own legend, by that of a cell that is
/// the same, or by that of the capital of a small letter. For a blank cell nothing is drawn.
#[tactic(auto, using(crate::proofs::Columns::each_cell_is_told))]
pub fn each_cell_is_told()
    ensures { EachCellIsTold }
{}

/// A picture is well formed: one element that holds all others, texts and tags of a few elements, each of which ends by
/// its own end tag, with a few attributes, none twice. No two ids are the same, and each link leads to an id that
/// stands before it. `]]>` stands in no text. So nothing of a keymap can begin an element, an attribute or a link.
pub fn pictures_are_well_formed()
    ensures { (d : Drawing) (bytes : List ℕ) → IsPicture d bytes → IsWellFormed bytes }
{}

/// Each byte of a picture is LF or a printable character of ASCII.
pub fn pictures_are_plain()
    ensures { (d : Drawing) (bytes : List ℕ) → IsPicture d bytes → All IsPlain bytes }
{}

/// Each character of a legend is one that XML 1.0 allows, and no control character, whether it stands as it is or by a
/// reference; and none, of legends and of titles, is one that nobody sees or that turns the direction of writing.
#[tactic(auto, using(crate::proofs::Plain::shown_laws))]
pub fn legends_are_shown()
    ensures shown { (cell : CellValue) → IsCell cell → All IsShown (cell_legend cell) }
    ensures seen { (cell : CellValue) → IsCell cell → All IsSeen (cell_legend cell) }
    ensures key { (slot : ℕ) (e : EntryValue) → slot < 256 → All IsCell e.cells → All IsSeen (slot_words slot e) }
    ensures accent { (i : ℕ) (accent : AccentValue) → All IsSeen (accent_words i accent) }
{}

/// The class of a key is a letter out of a fixed list, whatever the keymap is. So are those of legends, which the
/// functions of `place` ensure.
#[tactic(auto, using(crate::proofs::Red::keys_classed))]
pub fn classes_are_of_a_list()
    ensures { (fs : List FindingValue) (slot : ℕ) (e : EntryValue)
        → All IsClass (option_to_list (key_class fs slot e)) }
{}

/// The keys of a board are those of a keyboard, row by row and in each row from left to right. Each key code stands
/// once, no two caps overlap, and all lie on the panel.
pub fn boards_are_keyboards()
    ensures rows { BoardsAreKeyboards }
    ensures once { EachKeyOnce }
    ensures apart { NoTwoOverlap }
    ensures on_panel { AllLieOnThePanel }
{}

/// The cap that a key uses is as wide and as high as the key, but for the 4 units before the next one: it is named by
/// the letter of the key's shape, and its edge has the key's width and height.
#[tactic(auto, using(crate::proofs::ToldTwice::caps_are_of_their_keys))]
pub fn caps_are_of_their_keys()
    ensures { CapsAreOfTheirKeys }
{}

/// The style draws the letters of a word as high as its class says, by which it is told whether the word is wider than
/// its place and has to be shrunk.
#[tactic(auto, using(crate::proofs::ToldTwice::sizes_are_of_the_style))]
pub fn sizes_are_of_the_style()
    ensures { SizesAreOfTheStyle }
{}

/// A character that nobody sees has the name for a legend that Unicode abbreviates its name to, and no other character
/// has such a name.
#[tactic(auto, using(crate::proofs::ToldTwice::legends_are_names, crate::proofs::ToldTwice::no_others_are_named))]
pub fn names_are_of_their_characters()
    ensures legends { LegendsAreNames }
    ensures no_others { NoOthersAreNamed }
{}
