//! What is looked for among the cells of a key.
ghost use Rattle.std.specs.Prelude.{◌≡◌};
ghost use Rattle.keymap_check.specs.Cells.{is_of_kind, is_of_group};
ghost use Rattle.keymap_check.specs.Inner.Surveyed.{is_holding_kind};

use keymap_core::{Action, Cell, Holding, Modifier};

/// The modifiers that count as one when a column or a slot is looked up.
#[derive(Clone, Copy)]
pub enum Group {
    Shift,
    Control,
    Alt,
    AltShift,
}

/// A kind of cells.
#[derive(Clone, Copy)]
pub enum Kind {
    Character,
    /// A modifier or a lock.
    AnyHolding,
    Holding(Holding),
    OtherThan(Holding),
    CharacterOrNop,
    Of(Group),
}

fn is_holding(cell: Cell, holding: Holding) -> bool
    ensures { result ≡ is_of_kind (Kind.Holding holding) cell }
{
    match cell {
        Cell::Char(_) => false,
        Cell::Act(action) => action == holding.action(),
    }
}

fn is_in_group(modifier: Modifier, group: Group) -> bool
    ensures { result ≡ is_of_group group modifier }
{
    match group {
        Group::Shift => modifier == Modifier::LeftShift || modifier == Modifier::RightShift,
        Group::Control => modifier == Modifier::LeftControl || modifier == Modifier::RightControl,
        Group::Alt => modifier == Modifier::LeftAlt || modifier == Modifier::RightAlt,
        Group::AltShift => modifier == Modifier::AltShift,
    }
}

impl Kind {
    /// Whether only modifiers and locks are of the kind.
    pub(crate) fn is_holding(self) -> bool
        ensures { result ≡ is_holding_kind self }
    {
        matches!(&self, Kind::AnyHolding | Kind::Holding(_) | Kind::Of(_))
    }

    /// Whether the cell is of the kind.
    pub(crate) fn fits(self, cell: Cell) -> bool
        ensures { result ≡ is_of_kind self cell }
    {
        match self {
            Kind::Character => matches!(&cell, Cell::Char(_)),
            Kind::AnyHolding => {
                matches!(
                    &cell,
                    Cell::Act(Action::Mod(_)) | Cell::Act(Action::Lock(_))
                )
            }
            Kind::Holding(holding) => is_holding(cell, holding),
            Kind::OtherThan(holding) => !is_holding(cell, holding),
            Kind::CharacterOrNop => matches!(&cell, Cell::Char(_) | Cell::Act(Action::Nop)),
            Kind::Of(group) => match &cell {
                Cell::Act(Action::Mod(modifier)) => is_in_group(*modifier, group),
                _ => false,
            },
        }
    }
}
