// What holds of display queues over every list of frames, and of reorders over every list of calls.
ghost use Rattle.std.specs.Prelude.{◌≡◌, ℕ, ◌≤◌, ◌++◌, Bool, true, false, All, List, [], ◌∷◌, length, map, filter, option_to_list};
ghost use Rattle.m2v_set.specs.declared.settings.Settings.{Settings};
ghost use Rattle.m2v_set.specs.Rules.{Passes};
ghost use Rattle.m2v_order.specs.Calls.{Call, begun, calls, frames_in, jobs_in, picture_of, IsGroup};
ghost use Rattle.m2v_order.specs.Coding.{Picture, Coding};
ghost use Rattle.m2v_order.specs.Groups.{Queue, Group, is_due, group_of, followed, IsSoundQueue};
ghost use Rattle.m2v_order.specs.Whole.{IsGroupOf};
ghost use Rattle.m2v_order.specs.Display.{is_kept, Shown, Due, opening, handed, held_after, frames_of};

/// What a display queue hands out over every list of frames with their types, of which a test says which B frames are
/// dropped and so never decoded.
///
/// Its steps hand out `Due`, and with `finish` `Shown`; and what is due stays due, in the same order, whatever follows.
pub fn law_display<F>()
    ensures due { (dropped : F → Bool) (low_delay : Bool) (ps : List (F × ℕ))
        → handed (opening low_delay) (filter (is_kept dropped) ps)
        ≡ frames_of (Due dropped low_delay ps) }
    ensures shown { (dropped : F → Bool) (low_delay : Bool) (ps : List (F × ℕ))
        → let kept = filter (is_kept dropped) ps in handed (opening low_delay) kept
        ++ option_to_list (held_after (opening low_delay) kept).anchor
        ≡ frames_of (Shown dropped low_delay ps) }
    ensures prefix { (dropped : F → Bool) (low_delay : Bool) (ps qs : List (F × ℕ))
        → (more : List (F × ℕ))
        × (Due dropped low_delay (ps ++ qs) ≡ Due dropped low_delay ps ++ more) }
{}

/// What a reorder hands out over every list of calls, for settings that pass.
///
/// The frames handed out, and behind them those that wait, are the frames that were pushed, in order. When the end has
/// come and no frame waits, the pictures handed out are the coding order of all frames; until then they are the begin of
/// the coding order of as many frames as there may be in the end. Each group runs from one I frame up to the next, tells
/// each picture's frame by its place, and names the last anchor that was handed out before; it is a group of these settings
/// (`IsGroupOf`). A group that is due before the end is the same whatever frames follow.
pub fn law_groups<F>()
    ensures frames { (s : Settings) (cs : List (Call F))
        → let r = calls (begun s) cs in frames_in r.groups ++ r.now.frames ≡ r.pushed }
    ensures coding { (s : Settings) (cs : List (Call F)) → Passes s
        → let r = calls (begun s) cs in r.now.ended ≡ true → r.now.frames ≡ []
        → map picture_of (jobs_in r.groups) ≡ Coding s (length r.pushed) }
    ensures begin { (s : Settings) (cs : List (Call F)) (count : ℕ) → Passes s
        → let r = calls (begun s) cs in length r.pushed ≤ count
        → (r.now.ended ≡ true → count ≡ length r.pushed)
        → (more : List Picture) × (Coding s count ≡ map picture_of (jobs_in r.groups) ++ more) }
    ensures groups { (s : Settings) (cs : List (Call F)) → Passes s
        → (earlier : List (Group F)) (g : Group F) (later : List (Group F))
        → (calls (begun s) cs).groups ≡ earlier ++ g ∷ later → IsGroup earlier g }
    ensures handed { (s : Settings) (cs : List (Call F)) → Passes s
        → All (λ (g : Group F). IsGroupOf s g) (calls (begun s) cs).groups }
    ensures sound { (s : Settings) (cs : List (Call F)) → Passes s
        → IsSoundQueue (calls (begun s) cs).now }
    ensures stays { (q : Queue F) (more : List F) (ended : Bool) → Passes q.settings
        → IsSoundQueue q → q.ended ≡ false → is_due q ≡ true
        → (is_due (followed q more ended) ≡ true)
        × (group_of (followed q more ended) ≡ group_of q) }
{}
