//! Laws over images and faults at each layout: `wide` is that of the table file, and `narrow` that of the narrow file.
ghost use Rattle.std.specs.Prelude.{◌≡◌, ℕ, ◌+◌, ◌*◌, ◌<◌, List, length, slice_index, Result};
ghost use Rattle.keymap_core.specs.Maps.{MapValue, n_keys_of, n_accs_of, entry_at, cell_at, accent_or_blank};
ghost use Rattle.keymap_core.specs.Bounds.{IsMap};
ghost use Rattle.keymap_core.specs.Numbers.{slot_limit, column_count, accent_limit};
ghost use Rattle.keymap_tables.specs.Faults.{IsFirstFault, fault_at, number_at, is_marked_at};
ghost use Rattle.keymap_tables.specs.Files.{IsFileOf, IsNarrowFileOf};
ghost use Rattle.keymap_tables.specs.Filled.{Filled};
ghost use Rattle.keymap_tables.specs.Fits.{Fits, FitsIn, IsWide};
ghost use Rattle.keymap_tables.specs.Image.{image_in, narrow_image, count_bytes, slot_bytes, accent_bytes, number_of};
ghost use Rattle.keymap_tables.specs.Image.{is_act, flag_number};
ghost use Rattle.keymap_tables.specs.Layouts.{wide, narrow, part, number_size, count_size, cells_size, slot_size};
ghost use Rattle.keymap_tables.specs.Layouts.{accent_size, slot_place, n_accs_place, accent_place, file_size};
ghost use Rattle.keymap_tables.specs.Readings.{IsReadingIn, AnswersMap, AnswersFault};
ghost use Rattle.keymap_tables.specs.Types.{Layout, TableError, TableFault};
ghost use Rattle.keymap_tables.specs.declared.file.NarrowFile.{NarrowFile as NarrowFileValue};
ghost use Rattle.keymap_tables.specs.declared.file.TableFile.{TableFile as TableFileValue};
ghost use Rattle.keymap_tables.specs.declared.narrow.Wide.{Wide};

/// Each map fits in the table file. So the other laws hold there of each map.
pub fn each_map_fits_in_a_table_file()
    ensures { (m : MapValue) → IsMap m → FitsIn wide m }
{}

/// The image of each map that fits has the length of a file.
pub fn images_are_whole()
    ensures { (l : Layout) (m : MapValue) → IsMap m → FitsIn l m → length (image_in l m) ≡ file_size l }
{}

/// No image has a fault.
pub fn no_image_has_a_fault()
    ensures { (l : Layout) (m : MapValue) (f : TableFault) → IsMap m → FitsIn l m
        → ¬ IsFirstFault (fault_at l (image_in l m)) f }
{}

/// Two maps with one image are one.
pub fn an_image_has_one_map()
    ensures { (l : Layout) (m n : MapValue) → IsMap m → FitsIn l m → IsMap n → FitsIn l n
        → image_in l m ≡ image_in l n → m ≡ n }
{}

/// A file has at most one fault.
pub fn a_file_has_one_fault()
    ensures { (l : Layout) (bytes : List ℕ) (f g : TableFault) → IsFirstFault (fault_at l bytes) f
        → IsFirstFault (fault_at l bytes) g → f ≡ g }
{}

/// Reading the image of a map gives the map, where there is memory.
pub fn reading_an_image_gives_the_map()
    ensures { (l : Layout) (m : MapValue) (r : Result MapValue TableError) → IsMap m → FitsIn l m
        → IsReadingIn l (image_in l m) r → AnswersMap r m }
{}

/// Reading bytes that have a fault gives the fault, where there is memory.
pub fn reading_a_fault_gives_it()
    ensures { (l : Layout) (bytes : List ℕ) (f : TableFault) (r : Result MapValue TableError)
        → IsFirstFault (fault_at l bytes) f → IsReadingIn l bytes r → AnswersFault r f }
{}

/// A map that fits has no character above 255. So a map is refused exactly if it has one.
pub fn a_map_that_fits_has_no_wide_character()
    ensures { (m : MapValue) (w : Wide) → Fits m → ¬ IsWide m w }
{}

/// What stands at each place of an image: the counts with their pads, each slot and accent, also past the last defined
/// one, and each cell.
pub fn an_image_is_by_position()
    ensures n_keys { (l : Layout) (m : MapValue) → IsMap m → FitsIn l m
        → part (image_in l m) 0 (count_size l) ≡ count_bytes l (n_keys_of m) }
    ensures slots { (l : Layout) (m : MapValue) → IsMap m → FitsIn l m → (s : ℕ) → s < slot_limit
        → part (image_in l m) (slot_place l s) (slot_size l) ≡ slot_bytes l (entry_at m s) }
    ensures cells { (l : Layout) (m : MapValue) → IsMap m → FitsIn l m → (s column : ℕ) → s < slot_limit
        → column < column_count
        → number_at l (image_in l m) (slot_place l s + number_size l * column) ≡ number_of (cell_at m s column) }
    ensures marks { (l : Layout) (m : MapValue) → IsMap m → FitsIn l m → (s column : ℕ) → s < slot_limit
        → column < column_count
        → is_marked_at l (part (image_in l m) (slot_place l s) (slot_size l)) column ≡ is_act (cell_at m s column) }
    ensures flags { (l : Layout) (m : MapValue) → IsMap m → FitsIn l m → (s : ℕ) → s < slot_limit
        → slice_index (image_in l m) (slot_place l s + (cells_size l + 1)) ≡ flag_number (entry_at m s).flag }
    ensures n_accs { (l : Layout) (m : MapValue) → IsMap m → FitsIn l m
        → part (image_in l m) (n_accs_place l) (count_size l) ≡ count_bytes l (n_accs_of m) }
    ensures accents { (l : Layout) (m : MapValue) → IsMap m → FitsIn l m → (i : ℕ) → i < accent_limit
        → part (image_in l m) (accent_place l i) (accent_size l) ≡ accent_bytes l (accent_or_blank m i) }
{}

/// The parts of a file that show a map are the map's file.
pub fn filled_files_are_whole()
    ensures wide { (t : TableFileValue) (m : MapValue) → Filled wide t.n_keys t.slots t.n_accs t.accents m
        → IsFileOf m t }
    ensures narrow { (t : NarrowFileValue) (m : MapValue) → Filled narrow t.n_keys t.slots t.n_accs t.accents m
        → IsNarrowFileOf m t }
{}

/// In a narrow image each cell is one byte.
pub fn a_narrow_image_is_by_position()
    ensures { (m : MapValue) → IsMap m → Fits m → (s column : ℕ) → s < slot_limit → column < column_count
        → slice_index (narrow_image m) (slot_place narrow s + column) ≡ number_of (cell_at m s column) }
{}
