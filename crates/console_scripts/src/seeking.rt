//! The way that is taken to type a character: of the first class of ways that has one, one of those with the fewest
//! presses, if it can be without left alt, and then without right shift.
ghost use Rattle.std.specs.Prelude.{◌≡◌, ◌+◌, ℕ, Bool, true, false, ◌&&◌, None, Some, IfOk, OnOk};
ghost use Rattle.std.specs.Option.{is_none};
ghost use Rattle.keymap_core.specs.Bounds.{IsMap};
ghost use Rattle.keymap_core.specs.Maps.{MapValue};
ghost use Rattle.console_states.specs.Allowed.{Allows};
ghost use Rattle.console_states.specs.Moves.{State};
ghost use Rattle.console_states.specs.Searching.{GoBack, state_of};
ghost use Rattle.console_scripts.specs.Ways.{allows_in};
ghost use Rattle.console_scripts.specs.declared.courses.Target.{Target as TargetValue};
ghost use Rattle.console_scripts.specs.Inner.Courses.{IsEnding, IsReached, allows_but};
ghost use Rattle.console_scripts.specs.Inner.Exploring.{CanReturn, map_of_explored, origin_in, IsExplored};
ghost use Rattle.console_scripts.specs.Inner.Exploring.{IsExploredFrom};
ghost use Rattle.console_scripts.specs.Inner.Routes.{Routes};
ghost use Rattle.console_scripts.specs.Inner.Seeking.{AreReached, HasAccent, HasAccentBelow, HasTaps, IsChosen};
ghost use Rattle.console_scripts.specs.Inner.Seeking.{IsFound};
ghost use Rattle.console_scripts.specs.Inner.Seeking.{IsLooked, IsNearerOf};

use crate::classes::{CLASSES, Class, LEFT_ALT, RIGHT_SHIFT, SPARED, Spared, class_at};
use crate::courses::{Course, Ending, Found, Reached, Target, ending_of, reach};
use crate::explored::Explored;
use console_core::Event;
use indexmap::IndexMap;
use keyboard::Board;
use keymap_core::{KeyMap, Keymap};
use std::alloc::{AllocError, Global};

fn are_both(first: bool, second: bool) -> bool
    ensures { result ≡ (first && second) }
{
    first && second
}

/// A way that was found, if there is one, and whether all states were met that were looked for.
#[derive(Debug, Drop)]
pub struct Looked {
    pub found: Option<Found>,
    pub has_met_all: bool,
}

impl Looked {
    /// Nothing was looked for.
    fn nothing() -> Looked
        ensures none { result.found ≡ None }
        ensures all { result.has_met_all ≡ true }
    {
        Looked {
            found: None,
            has_met_all: true,
        }
    }

    fn into_found(self) -> Option<Found>
        ensures { result ≡ self.found }
    {
        self.found
    }

    /// The one of fewer presses, and of as many the first.
    fn or_nearer(self, other: Looked) -> Looked
        ensures { (a : Allows) (m : MapValue) (s : State) (c : TargetValue) (one : Bool) (routes : Routes) (n : ℕ)
            → IsLooked a m s c one (HasAccentBelow n) routes self
            → IsLooked a m s c one (HasAccent (Some n)) routes other
            → IsLooked a m s c one (HasAccentBelow (n + 1)) routes result }
    {
        Looked {
            found: nearer(self.found, other.found),
            has_met_all: are_both(self.has_met_all, other.has_met_all),
        }
    }
}

/// The way that is taken, and its class.
#[derive(Debug, Drop)]
pub struct Chosen {
    pub class: Class,
    pub found: Found,
}

/// The way that is taken, if there is one, and whether all states were met that were looked for.
#[derive(Debug, Drop)]
pub struct Choice {
    pub chosen: Option<Chosen>,
    pub has_met_all: bool,
}

/// The one of fewer presses, and of as many the first.
fn nearer(first: Option<Found>, second: Option<Found>) -> Option<Found>
    ensures { IsNearerOf first second result }
{
    let Some(a) = first else {
        return second;
    };
    let Some(b) = second else {
        return Some(a);
    };
    if b.presses < a.presses {
        Some(b)
    } else {
        Some(a)
    }
}

/// Whether the key is pressed in the events.
fn is_pressed_in(events: &[Event], code: u8) -> bool {
    for event in events {
        if let Event::Press(key) = event {
            if key.get() == code {
                return true;
            }
        }
    }
    false
}

/// Whether the way holds neither left alt nor right shift.
fn spares_both(found: &Found) -> bool {
    !is_pressed_in(&found.events, LEFT_ALT) && !is_pressed_in(&found.events, RIGHT_SHIFT)
}

/// The nearest way of the course among the states that it leads to.
fn look_in(
    reached: &Reached,
    alloc: Global,
    explored: &Explored,
    ending: &Ending,
) -> Result<Looked, AllocError>
    requires back { GoBack reached.now.met.entries }
    ensures { IfOk result (λ r. (b : Board) (m : MapValue) (o : Course) (c : TargetValue) → IsReached b m o reached.now
        → IsExploredFrom m (state_of o.from) explored.now → CanReturn m (state_of o.from)
        → IsEnding b m o c ending.now
        → IsLooked (allows_but b o.class o.spared) m (state_of o.from) c (is_none o.accent) (HasAccent o.accent)
        explored.now.routes.entries r) }
{
    let found = reached.look(alloc, explored.maps.first, ending, &explored.routes)?;
    Ok(Looked {
        found,
        has_met_all: are_both(reached.is_complete, explored.is_complete),
    })
}

/// What was met by the presses of classes on a board.
#[derive(Drop)]
pub struct Seeker {
    alloc: Global,
    board: Board,
    courses: IndexMap<Course, Reached>,
}

impl Seeker {
    pub fn new(alloc: Global, board: Board) -> Seeker
        ensures board { result.board ≡ board }
        ensures courses { (m : MapValue) → AreReached board m result.courses.entries }
    {
        Seeker {
            alloc,
            board,
            courses: IndexMap::new(alloc),
        }
    }

    /// The nearest way of the course that is looked for.
    fn find(
        &mut self,
        explored: &Explored,
        course: &Course,
        target: Target,
    ) -> Result<Looked, AllocError>
        requires known { IsMap (map_of_explored explored.now) }
        requires explored { IsExploredFrom (map_of_explored explored.now) (state_of course.now.from) explored.now }
        requires can_return { CanReturn (map_of_explored explored.now) (state_of course.now.from) }
        requires courses { AreReached self.old.board (map_of_explored explored.now) self.old.courses.entries }
        ensures board { OnOk result (self.new.board ≡ self.old.board) }
        ensures courses { OnOk result (AreReached self.new.board (map_of_explored explored.now)
            self.new.courses.entries) }
        ensures looked { IfOk result (IsLooked (allows_but self.old.board course.now.class course.now.spared)
            (map_of_explored explored.now) (state_of course.now.from) target (is_none course.now.accent)
            (HasAccent course.now.accent) explored.now.routes.entries) }
    {
        let map: &KeyMap = explored.maps.first;
        let Some(ending) = ending_of(map, self.board, course, target) else {
            return Ok(Looked::nothing());
        };
        if let Some(reached) = self.courses.get(course) {
            return look_in(reached, self.alloc, explored, &ending);
        }
        let reached = reach(self.alloc, map, self.board, course)?;
        let looked = look_in(&reached, self.alloc, explored, &ending)?;
        self.courses.insert(*course, reached)?;
        Ok(looked)
    }

    /// The nearest way of the course with the dead key of some accent.
    fn find_composed(
        &mut self,
        explored: &Explored,
        course: &Course,
        target: Target,
    ) -> Result<Looked, AllocError>
        requires known { IsMap (map_of_explored explored.now) }
        requires explored { IsExploredFrom (map_of_explored explored.now) (state_of course.now.from) explored.now }
        requires can_return { CanReturn (map_of_explored explored.now) (state_of course.now.from) }
        requires courses { AreReached self.old.board (map_of_explored explored.now) self.old.courses.entries }
        ensures board { OnOk result (self.new.board ≡ self.old.board) }
        ensures courses { OnOk result (AreReached self.new.board (map_of_explored explored.now)
            self.new.courses.entries) }
        ensures looked { IfOk result (IsLooked (allows_but self.old.board course.now.class course.now.spared)
            (map_of_explored explored.now) (state_of course.now.from) target false (HasTaps false)
            explored.now.routes.entries) }
    {
        let map: &KeyMap = explored.maps.first;
        let mut nearest = Looked::nothing();
        let mut index = 0;
        while let Some(_) = map.accent(index) {
            let mut by = *course;
            by.accent = Some(index);
            let looked = self.find(explored, &by, target)?;
            nearest = nearest.or_nearer(looked);
            index += 1;
        }
        Ok(nearest)
    }

    /// The nearest way of the class, but for spared keys.
    fn find_sparing(
        &mut self,
        explored: &Explored,
        class: Class,
        spared: Spared,
        target: Target,
    ) -> Result<Looked, AllocError>
        requires known { IsMap (map_of_explored explored.now) }
        requires explored { IsExplored explored.now }
        requires can_return { CanReturn (map_of_explored explored.now) (origin_in explored.now) }
        requires courses { AreReached self.old.board (map_of_explored explored.now) self.old.courses.entries }
        ensures board { OnOk result (self.new.board ≡ self.old.board) }
        ensures courses { OnOk result (AreReached self.new.board (map_of_explored explored.now)
            self.new.courses.entries) }
        ensures looked { IfOk result (IsLooked (allows_but self.old.board class spared) (map_of_explored explored.now)
            (origin_in explored.now) target class.is_one_tap (HasTaps class.is_one_tap)
            explored.now.routes.entries) }
    {
        let course = Course {
            from: explored.origin,
            class,
            spared,
            accent: None,
        };
        if class.is_one_tap {
            self.find(explored, &course, target)
        } else {
            self.find_composed(explored, &course, target)
        }
    }

    /// A way of as few presses as this one of the class, which spares what can be spared.
    fn spare(
        &mut self,
        explored: &Explored,
        class: Class,
        found: Found,
        target: Target,
    ) -> Result<Found, AllocError>
        requires known { IsMap (map_of_explored explored.now) }
        requires explored { IsExplored explored.now }
        requires can_return { CanReturn (map_of_explored explored.now) (origin_in explored.now) }
        requires courses { AreReached self.old.board (map_of_explored explored.now) self.old.courses.entries }
        requires found { IsFound (allows_in self.old.board class) (map_of_explored explored.now)
            (origin_in explored.now) target class.is_one_tap explored.now.routes.entries found }
        ensures board { OnOk result (self.new.board ≡ self.old.board) }
        ensures courses { OnOk result (AreReached self.new.board (map_of_explored explored.now)
            self.new.courses.entries) }
        ensures found { IfOk result (IsFound (allows_in self.old.board class) (map_of_explored explored.now)
            (origin_in explored.now) target class.is_one_tap explored.now.routes.entries) }
        ensures presses { IfOk result (λ f. f.presses ≡ found.presses) }
    {
        for spared in SPARED {
            let looked = self.find_sparing(explored, class, spared, target)?;
            if let Some(other) = looked.into_found() {
                if other.presses == found.presses {
                    return Ok(other);
                }
            }
        }
        Ok(found)
    }

    /// The way of the class that is taken.
    fn find_best(
        &mut self,
        explored: &Explored,
        class: Class,
        target: Target,
    ) -> Result<Looked, AllocError>
        requires known { IsMap (map_of_explored explored.now) }
        requires explored { IsExplored explored.now }
        requires can_return { CanReturn (map_of_explored explored.now) (origin_in explored.now) }
        requires courses { AreReached self.old.board (map_of_explored explored.now) self.old.courses.entries }
        ensures board { OnOk result (self.new.board ≡ self.old.board) }
        ensures courses { OnOk result (AreReached self.new.board (map_of_explored explored.now)
            self.new.courses.entries) }
        ensures looked { IfOk result (IsLooked (allows_in self.old.board class) (map_of_explored explored.now)
            (origin_in explored.now) target class.is_one_tap (HasTaps class.is_one_tap)
            explored.now.routes.entries) }
    {
        let looked = self.find_sparing(explored, class, Spared::none(), target)?;
        let has_met_all = looked.has_met_all;
        let Some(found) = looked.into_found() else {
            return Ok(Looked {
                found: None,
                has_met_all,
            });
        };
        if spares_both(&found) {
            return Ok(Looked {
                found: Some(found),
                has_met_all,
            });
        }
        let found = self.spare(explored, class, found, target)?;
        Ok(Looked {
            found: Some(found),
            has_met_all,
        })
    }

    /// The way that is taken from where the exploration began.
    pub fn choose(&mut self, explored: &Explored, target: Target) -> Result<Choice, AllocError>
        requires known { IsMap (map_of_explored explored.now) }
        requires explored { IsExplored explored.now }
        requires can_return { CanReturn (map_of_explored explored.now) (origin_in explored.now) }
        requires courses { AreReached self.old.board (map_of_explored explored.now) self.old.courses.entries }
        ensures board { OnOk result (self.new.board ≡ self.old.board) }
        ensures courses { OnOk result (AreReached self.new.board (map_of_explored explored.now)
            self.new.courses.entries) }
        ensures chosen { IfOk result (IsChosen self.old.board (map_of_explored explored.now) (origin_in explored.now)
            target explored.now.routes.entries) }
    {
        let mut has_met_all = true;
        for place in 0..CLASSES {
            let class = class_at(place);
            let looked = self.find_best(explored, class, target)?;
            has_met_all = are_both(has_met_all, looked.has_met_all);
            if let Some(found) = looked.into_found() {
                return Ok(Choice {
                    chosen: Some(Chosen { class, found }),
                    has_met_all,
                });
            }
        }
        Ok(Choice {
            chosen: None,
            has_met_all,
        })
    }
}
