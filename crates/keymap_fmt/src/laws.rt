//! Laws of the layout. No function here does anything.
ghost use Rattle.std.specs.Prelude.{◌≡◌, ℕ, ◌<◌, List, [], ◌∷◌, ◌++◌, map, All, true, false, codes};
ghost use Rattle.keymap_fmt.specs.Pieces.{PieceValue, pieces, pieces_after, line_ends, code, comment};
ghost use Rattle.keymap_fmt.specs.Formatted.{formatted, rendered, rendered_from, state_behind};
ghost use Rattle.keymap_fmt.specs.Layout.{is_over, is_open, start};
ghost use Rattle.keymap_fmt.specs.Types.{Standing as StandingValue, TokenKind as TokenKindValue};
ghost use Rattle.keymap_fmt.specs.Types.{AtTop, Beside, Below, Apart};
ghost use Rattle.keymap_text.specs.Lexical.{is_blank};
ghost use Rattle.keymap_fmt.specs.Same.{part_and_bytes, part_and_line, kind_and_bytes, token_of};
ghost use Rattle.keymap_text.specs.Meaning.{items, tokens, Spells};
ghost use Rattle.keymap_fmt.specs.Quoted.{AreSameItems, comment_of, laid_by, quoted};
ghost use Rattle.keymap_fmt.specs.declared.quoted.Characters.{Characters as CharactersValue};
ghost use Rattle.keymap_core.specs.Maps.{MapValue};
ghost use Rattle.keymap_fmt.specs.Words.{LayoutsHaveNoNewWords};
ghost use Rattle.std.specs.List.{flat_map};

use keymap_text::laws::one_meaning;

/// What is formatted has the same tokens and the same comments in the same order, byte for byte but for the blanks at
/// the end of a comment.
#[tactic(auto, using(crate::proofs::Again::parts_stay))]
pub fn parts_stay()
    ensures { (text : List ℕ) → map part_and_bytes (pieces (formatted text)) ≡ map part_and_bytes (pieces text) }
{}

/// What is formatted has the same pieces in the same order, and of the comments the same ones stand behind a token in its
/// line.
#[tactic(auto, using(crate::proofs::Again::lines_stay))]
pub fn comments_stay_beside()
    ensures { (text : List ℕ) → map part_and_line (pieces (formatted text)) ≡ map part_and_line (pieces text) }
{}

/// The tokens among the pieces of a text are its tokens.
#[tactic(auto, using(crate::proofs::Spelling::tokens_of_pieces))]
pub fn pieces_hold_the_tokens()
    ensures { (text : List ℕ) → flat_map token_of (pieces text) ≡ map kind_and_bytes (tokens text) }
{}

/// What is formatted has the same tokens: each has the same kind and the same bytes.
#[tactic(auto, using(crate::proofs::Spelling::tokens_stay))]
pub fn tokens_stay()
    ensures { (text : List ℕ) → map kind_and_bytes (tokens (formatted text)) ≡ map kind_and_bytes (tokens text) }
{}

/// A word without blanks that stands nowhere in a text stands nowhere in what is formatted.
pub fn layouts_have_no_new_words()
    ensures { LayoutsHaveNoNewWords }
{}

/// Either layout of a text spells the keymap that the text spells, and no other.
pub fn keymap_stays()
    ensures spells { (how : CharactersValue) (text : List ℕ) (m : MapValue) → Spells text m
        → Spells (laid_by how text) m }
    ensures no_other { (how : CharactersValue) (text : List ℕ) (m n : MapValue) → Spells text m
        → Spells (laid_by how text) n → n ≡ m }
{
    one_meaning();
}

/// What is laid out with its characters between apostrophes means the same, token by token, and has the same comments
/// in the same places between them. It is in the layout.
pub fn quoting_says_the_same()
    ensures tokens { (text : List ℕ) → AreSameItems (items text) (items (quoted text)) }
    ensures comments { (text : List ℕ) → map comment_of (pieces (quoted text)) ≡ map comment_of (pieces text) }
    ensures layout { (text : List ℕ) → formatted (quoted text) ≡ quoted text }
{}

/// What has its characters between apostrophes is left alone when it is laid out so again.
#[tactic(auto, using(crate::proofs::Quoting::quoted_again))]
pub fn quoting_again_changes_nothing()
    ensures { (text : List ℕ) → quoted (quoted text) ≡ quoted text }
{}

/// What is formatted is left alone when it is formatted again.
#[tactic(auto, using(crate::proofs::Again::formatted_again))]
pub fn formatting_again_changes_nothing()
    ensures { (text : List ℕ) → formatted (formatted text) ≡ formatted text }
{}

/// A definition is laid out as it would be alone, whatever stands before it and behind it: pieces that end a
/// definition, a pair or a comment, and pieces that begin with a definition, give together what each of them gives.
#[tactic(auto, using(crate::proofs::Separate::definition_apart))]
pub fn definitions_are_laid_out_alone()
    ensures { (ps qs : List PieceValue) (kind : TokenKindValue) (bytes : List ℕ) (standing : StandingValue)
        → is_over (state_behind start ps) ≡ true → is_open kind ≡ false
        → rendered (ps ++ code kind bytes standing ∷ qs) ≡ rendered ps ++ rendered (code kind bytes standing ∷ qs) }
{}

/// Line ends tell where a piece stands, and no other blanks do. Behind a token it stands in its line where no line ends
/// between them, in the next line where one does, and behind an empty line where more do; behind a comment, which takes
/// the end of its line with it, in the next line, or behind an empty line where a line ends between them.
pub fn line_ends_tell_where_pieces_stand()
    ensures same { (standing : StandingValue) (gap rest : List ℕ) → All (λ c. is_blank c ≡ true) gap
        → line_ends gap ≡ 0 → pieces_after 0 standing (gap ++ rest) ≡ pieces_after 0 standing rest }
    ensures first { (gap rest : List ℕ) → All (λ c. is_blank c ≡ true) gap
        → pieces_after 0 AtTop (gap ++ rest) ≡ pieces_after 0 AtTop rest }
    ensures next_line { (gap rest : List ℕ) → All (λ c. is_blank c ≡ true) gap → line_ends gap ≡ 1
        → pieces_after 0 Beside (gap ++ rest) ≡ pieces_after 0 Below rest }
    ensures apart { (gap rest : List ℕ) → All (λ c. is_blank c ≡ true) gap → 1 < line_ends gap
        → pieces_after 0 Beside (gap ++ rest) ≡ pieces_after 0 Apart rest }
    ensures behind_comment { (gap rest : List ℕ) → All (λ c. is_blank c ≡ true) gap → 0 < line_ends gap
        → pieces_after 0 Below (gap ++ rest) ≡ pieces_after 0 Apart rest }
{}

/// A comment that stands in the line of the token before it comes two blanks behind that token. Any other one begins a
/// line, in its first column, and an empty line stands before it exactly if one or more stood there. A line ends behind
/// a comment, and what follows begins the next one.
pub fn comments_keep_their_place()
    ensures beside { (ps : List PieceValue) (kind : TokenKindValue) (word : List ℕ) (standing : StandingValue)
        (bytes : List ℕ) → (line : List ℕ) × (rendered (ps ++ code kind word standing ∷ []) ≡ line ++ codes "\n")
        × (rendered (ps ++ code kind word standing ∷ (comment bytes Beside ∷ []))
        ≡ line ++ (codes "  " ++ (bytes ++ codes "\n"))) }
    ensures next_line { (ps : List PieceValue) (bytes : List ℕ)
        → rendered (ps ++ comment bytes Below ∷ []) ≡ rendered ps ++ (bytes ++ codes "\n") }
    ensures apart { (ps : List PieceValue) (bytes : List ℕ)
        → rendered (ps ++ comment bytes Apart ∷ []) ≡ rendered ps ++ (codes "\n" ++ (bytes ++ codes "\n")) }
    ensures first { (bytes : List ℕ) → rendered (comment bytes AtTop ∷ []) ≡ bytes ++ codes "\n" }
    ensures ends { (ps qs : List PieceValue) (bytes : List ℕ) (standing : StandingValue)
        → rendered (ps ++ comment bytes standing ∷ qs) ≡ rendered (ps ++ comment bytes standing ∷ [])
        ++ rendered_from (state_behind start (ps ++ comment bytes standing ∷ [])) qs }
{}
