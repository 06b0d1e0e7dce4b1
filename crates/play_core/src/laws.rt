//! Laws of the definitions. No function here does anything.
ghost use Rattle.std.specs.Prelude.{◌≡◌, ℕ, List, ◌∷◌, ◌++◌, ◌⊎◌, map};
ghost use Rattle.std.specs.List.{flat_map};
ghost use Rattle.play_core.specs.Types.{Event as EventValue, ScriptFault as Fault, Sent as SentValue};
ghost use Rattle.console_core.specs.History.{HasKeys};
ghost use Rattle.play_core.specs.Delivery.{delivered};
ghost use Rattle.play_core.specs.Scripts.{IsScript, IsScriptFault};
ghost use Rattle.play_core.specs.Spelling.{Line, AreWritable, text_of, sent_in, sent_of, event_line};

/// A script is one list of sent events, or has one fault.
pub fn one_reading()
    ensures one_list { (script : List ℕ) (xs ys : List SentValue) → IsScript script xs → IsScript script ys → xs ≡ ys }
    ensures one_fault { (script : List ℕ) (f g : Fault) → IsScriptFault script f → IsScriptFault script g → f ≡ g }
    ensures not_both { (script : List ℕ) (sent : List SentValue) (f : Fault) → IsScript script sent
        → IsScriptFault script f → ⊥ }
    ensures one_of_them { (script : List ℕ)
        → ((sent : List SentValue) × IsScript script sent) ⊎ ((f : Fault) × IsScriptFault script f) }
{}

/// Two scripts with a line feed between them are a script of what the first sends and then of what the second sends.
pub fn scripts_are_joined_by_a_line_feed()
    ensures { (a b : List ℕ) (xs ys : List SentValue) → IsScript a xs → IsScript b ys
        → IsScript (a ++ 10 ∷ b) (xs ++ ys) }
{}

/// Written lines, of what is sent and comments between, are a script of exactly what they send.
pub fn written_lines_are_a_script()
    ensures script { (lines : List Line) → AreWritable lines → IsScript (text_of lines) (sent_in lines) }
    ensures nothing_else { (lines : List Line) (sent : List SentValue) → AreWritable lines
        → IsScript (text_of lines) sent → sent ≡ sent_in lines }
    ensures no_fault { (lines : List Line) (f : Fault) → AreWritable lines → IsScriptFault (text_of lines) f → ⊥ }
{}

/// The lines of events on keys are a script of what is sent of them, and so of nothing else.
pub fn events_are_written_as_a_script()
    ensures { (events : List EventValue) → HasKeys events
        → IsScript (flat_map event_line events) (map sent_of events) }
{}

/// What is sent of events, a press by `down`, delivers them.
#[tactic(auto, using(crate::proofs::Spelling::delivers))]
pub fn events_are_delivered()
    ensures { (events : List EventValue) → delivered (map sent_of events) ≡ events }
{}
